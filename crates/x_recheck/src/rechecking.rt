//! The check of the items that an edit makes stale.

ghost use Rattle.std.specs.Prelude.{◌≡◌, ◌+◌, length, map, option_map, IfOk};
ghost use Rattle.x_trees.specs.View.{tree_at};
ghost use Rattle.x_rules.specs.KeptViews.{lent_outcome};
ghost use Rattle.x_rules.specs.Results.{result_at};
ghost use Rattle.x_rules.specs.RustViews.{view_view};
ghost use Rattle.x_recheck.specs.Editing.{CheckedText, IsEdit, definition_at, edit_at};
ghost use Rattle.x_uses.specs.Occurrences.{IsUsesOf};
ghost use Rattle.x_recheck.specs.Staleness.{CountsChecks, IsRecheck, checked_more};

mod candidates;
mod checking;
mod edited_items;
mod numbers;
mod queue;
mod sights;

use candidates::first_candidates;
use checking::check_next;
use edited_items::EditedItems;
use std::alloc::Global;
use x_rules::{Checked, View};
use x_text::{Meter, NoMemory};
use x_trees::Definition;
use x_uses::{ItemSplice, Uses};

/// The items of a text, with what checking them found, and what is known of names before it.
pub trait CheckedItems {
    /// What is known of names before the text, the definition of each item, if it has one, and what checking
    /// it found.
    ghost text: { Self → CheckedText };

    /// What each item sees of a name that is known before the text.
    fn known(&self, name: &[u8]) -> Option<View<'_>>
        ensures { option_map view_view result ≡ (text self.now).known name.now };

    /// The definition of the item of this number, if it has one.
    fn definition(&self, item: usize) -> Option<&Definition>
        ensures { tree_at result ≡ definition_at (text self.now).definitions item };

    /// What checking the item of this number found, if it has a definition.
    fn checked(&self, item: usize) -> Option<&Checked>
        ensures { lent_outcome result ≡ result_at (text self.now).outcomes item };
}

/// What checking a stale item found.
#[derive(Drop)]
pub struct Rechecked {
    /// Its number after the edit, counted from 0.
    pub item: usize,
    /// What was found.
    pub checked: Checked,
}

/// Checks the items that are stale once `put` takes the place of the items there, and no others. What is
/// found is in the order of their numbers. Counts each as checked. `uses` is the table of the names of the
/// items `old`, and `fresh` that of `put`.
///
/// An item is stale if it has a definition, and is fresh or sees a name otherwise than before that it
/// declares or uses.
///
/// # Errors
///
/// [`NoMemory`] where something could not be kept.
pub fn recheck<L: CheckedItems>(
    alloc: Global,
    old: &L,
    put: &[Option<&Definition>],
    place: ItemSplice,
    uses: &Uses,
    fresh: &Uses,
    meter: &mut Meter,
) -> Result<Vec<Rechecked>, NoMemory>
    requires edit { IsEdit (edit_at (L.text old.now) place (map tree_at put.now)) }
    requires uses { IsUsesOf (L.text old.now).definitions uses.now }
    requires fresh { IsUsesOf (map tree_at put.now) fresh.now }
    ensures rechecked { IfOk result (λ rechecked. IsRecheck (edit_at (L.text old.now) place
        (map tree_at put.now)) rechecked.items) }
    ensures counted { IfOk result (λ rechecked. meter.new ≡ checked_more meter.old (length rechecked.items)) }
    ensures counts { CountsChecks meter.old meter.new }
{
    // A read of the count shows that it fits its type.
    let _counted = meter.checked();
    let items = EditedItems {
        old,
        put,
        place,
        uses,
        fresh,
    };
    let mut queue = first_candidates(alloc, &items)?;
    let mut rechecked = Vec::new(alloc);
    let mut low = 0;
    while let Some(item) = check_next(alloc, &items, low, &mut rechecked, &mut queue, meter)? {
        low = item + 1;
    }
    Ok(rechecked)
}
