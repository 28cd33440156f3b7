//! The items of a text before an edit and after it.

ghost use Rattle.std.specs.Prelude.{◌≡◌, ◌<◌, length, map, option_map, Option};
ghost use Rattle.x_trees.specs.View.{tree_at};
ghost use Rattle.x_names.specs.Declarers.{first_declarer};
ghost use Rattle.x_rules.specs.KeptViews.{lent_outcome};
ghost use Rattle.x_rules.specs.Results.{result_at};
ghost use Rattle.x_rules.specs.RustViews.{view_view};
ghost use Rattle.x_recheck.specs.Editing.{definitions_after, definition_at, old_number, new_number};
ghost use Rattle.x_recheck.specs.Editing.{count_after};
ghost use Rattle.x_uses.specs.Occurrences.{users_of};
ghost use Rattle.x_recheck.specs.inside.Deciding.{AreEditedItems, text_edit};
ghost use Rattle.x_recheck.specs.Staleness.{Ascending, new_result, result_after, items_of};

use super::numbers::{new_number, old_number};
use super::{CheckedItems, Rechecked};
use x_names::Declarer;
use x_rules::{Checked, View};
use x_trees::Definition;
use x_uses::{ItemSplice, Uses};

/// An edit of a text, with who declares and who uses each name.
#[derive(Drop)]
pub struct EditedItems<'s, L> {
    pub old: &'s L,
    pub put: &'s [Option<&'s Definition>],
    pub place: ItemSplice,
    pub uses: &'s Uses,
    pub fresh: &'s Uses,
}

impl<'s, L: CheckedItems> EditedItems<'s, L> {
    /// The number that an item had before the edit, unless it is fresh.
    pub fn old_number(&self, item: usize) -> Option<usize>
        requires items { AreEditedItems L.text self.now }
        requires item { item < count_after (text_edit L.text self.now) }
        ensures { result ≡ old_number self.now.place item }
    {
        old_number(self.place, item)
    }

    /// The number that an item has after the edit, unless it goes.
    pub fn new_number(&self, item: usize) -> Option<usize>
        requires items { AreEditedItems L.text self.now }
        requires item { item < length (text_edit L.text self.now).old }
        ensures { result ≡ new_number self.now.place item }
    {
        new_number(self.place, item)
    }

    /// The definition of an item before the edit.
    pub fn old_definition(&self, item: usize) -> Option<&Definition>
        ensures { tree_at result ≡ definition_at (text_edit L.text self.now).old item }
    {
        self.old.definition(item)
    }

    /// The definition of an item after the edit.
    pub fn definition(&self, item: usize) -> Option<&Definition>
        requires items { AreEditedItems L.text self.now }
        requires item { item < count_after (text_edit L.text self.now) }
        ensures { tree_at result ≡ definition_at (definitions_after (text_edit L.text self.now)) item }
    {
        match old_number(self.place, item) {
            Some(old) => self.old.definition(old),
            None => definition_in(self.put, item - self.place.at),
        }
    }

    /// What each item sees of a name that is known before the text.
    pub fn known(&self, name: &[u8]) -> Option<View<'_>>
        ensures { option_map view_view result ≡ (text_edit L.text self.now).known name.now }
    {
        self.old.known(name)
    }

    /// The first declarer of a name before the edit.
    pub fn first(&self, name: &[u8]) -> Option<Declarer>
        requires { AreEditedItems L.text self.now }
        ensures { result ≡ first_declarer (text_edit L.text self.now).old name.now }
    {
        self.uses.first(name)
    }

    /// The first declarer of a name after the edit.
    pub fn first_after(&self, name: &[u8]) -> Option<Declarer>
        requires { AreEditedItems L.text self.now }
        ensures { result ≡ first_declarer (definitions_after (text_edit L.text self.now)) name.now }
    {
        self.uses.first_after(self.fresh, self.place, name)
    }

    /// The items before the edit that declare or use a name.
    pub fn users(&self, name: &[u8]) -> &[u32]
        requires { AreEditedItems L.text self.now }
        ensures { result.now ≡ users_of 0 (text_edit L.text self.now).old name.now }
    {
        self.uses.users(name)
    }

    /// What checking an item before the edit found.
    pub fn old_checked(&self, item: usize) -> Option<&Checked>
        ensures { lent_outcome result ≡ result_at (text_edit L.text self.now).outcomes item }
    {
        self.old.checked(item)
    }

    /// What is known of an item after the edit: what was found anew, or else what was found before.
    pub fn checked<'c>(&'c self, rechecked: &'c [Rechecked], item: usize) -> Option<&'c Checked>
        requires items { AreEditedItems L.text self.now }
        requires item { item < count_after (text_edit L.text self.now) }
        requires ascend { Ascending 0 (items_of rechecked.now) }
        ensures { lent_outcome result ≡ result_after (text_edit L.text self.now) rechecked.now item }
    {
        match find_checked(rechecked, item) {
            Some(checked) => Some(checked),
            None => self.old.checked(old_number(self.place, item)?),
        }
    }
}

/// The definition at an index, if there is one.
fn definition_in<'d>(definitions: &[Option<&'d Definition>], index: usize) -> Option<&'d Definition>
    ensures { tree_at result ≡ definition_at (map tree_at definitions.now) index }
{
    match definitions.get(index)? {
        Some(definition) => Some(definition),
        None => None,
    }
}

/// What was found anew of an item, if it was checked.
fn find_checked(rechecked: &[Rechecked], item: usize) -> Option<&Checked>
    requires { Ascending 0 (items_of rechecked.now) }
    ensures { lent_outcome result ≡ new_result rechecked.now item }
{
    match rechecked.binary_search_by_key(&item, |one| one.item) {
        Ok(index) => Some(&rechecked[index].checked),
        Err(_) => None,
    }
}
