//! What items see of their names before an edit and after it.

ghost use Rattle.std.specs.Prelude.{◌≡◌, ◌↔◌, ℕ, List, map, IfOk, IsTrue, IsFalse};
ghost use Rattle.std.specs.List.{IsAmong};
ghost use Rattle.x_outline.specs.Outlines.{IsOutline, outlined};
ghost use Rattle.x_rules.specs.Results.{result_at, view_by};
ghost use Rattle.x_rules.specs.RustViews.{view_view};
ghost use Rattle.x_trees.specs.Seen.{names_of};
ghost use Rattle.x_recheck.specs.Editing.{definitions_after};
ghost use Rattle.x_recheck.specs.inside.Deciding.{AreEditedItems, SeesSame, SeesOther, text_edit};
ghost use Rattle.x_recheck.specs.Staleness.{Ascending, result_after, items_of};

use super::edited_items::EditedItems;
use super::{CheckedItems, Rechecked};
use std::alloc::Global;
use x_rules::{Outline, View};
use x_text::NoMemory;

/// What an item saw of a name before the edit.
fn old_view<'v, L: CheckedItems>(items: &'v EditedItems<L>, item: usize, name: &[u8]) -> View<'v>
    requires { AreEditedItems L.text items.now }
    ensures { view_view result
        ≡ view_by (text_edit L.text items.now).known (text_edit L.text items.now).old (result_at
        (text_edit L.text items.now).outcomes) item name.now }
{
    let first = items.first(name);
    let declaring = match first {
        Some(declarer) => items.old_checked(declarer.item),
        None => None,
    };
    View::of(item, name, items.known(name), first, declaring)
}

/// What an item sees of a name after the edit, by what was found so far.
fn new_view<'v, L: CheckedItems>(
    items: &'v EditedItems<L>,
    rechecked: &'v [Rechecked],
    item: usize,
    name: &[u8],
) -> View<'v>
    requires items { AreEditedItems L.text items.now }
    requires ascend { Ascending 0 (items_of rechecked.now) }
    ensures { view_view result
        ≡ view_by (text_edit L.text items.now).known (definitions_after (text_edit L.text items.now))
        (result_after (text_edit L.text items.now) rechecked.now) item name.now }
{
    let first = items.first_after(name);
    let declaring = match first {
        Some(declarer) => items.checked(rechecked, declarer.item),
        None => None,
    };
    View::of(item, name, items.known(name), first, declaring)
}

/// Whether two views show the same.
fn is_same_view(one: &View, other: &View) -> bool
    ensures { IsTrue result ↔ (view_view one.now ≡ view_view other.now) }
{
    one == other
}

/// Whether an item, which had the number `was`, sees a name as before.
fn sees_name_same<L: CheckedItems>(
    items: &EditedItems<L>,
    rechecked: &[Rechecked],
    was: usize,
    item: usize,
    name: &[u8],
) -> bool
    requires items { AreEditedItems L.text items.now }
    requires ascend { Ascending 0 (items_of rechecked.now) }
    ensures { IsTrue result
        ↔ SeesSame (text_edit L.text items.now) (result_after
        (text_edit L.text items.now) rechecked.now) was item name.now }
{
    is_same_view(
        &old_view(items, was, name),
        &new_view(items, rechecked, item, name),
    )
}

/// Whether an item, which had the number `was`, sees all names of its definition as before.
pub fn sees_same<L: CheckedItems>(
    items: &EditedItems<L>,
    rechecked: &[Rechecked],
    was: usize,
    item: usize,
    outline: &Outline,
) -> bool
    requires items { AreEditedItems L.text items.now }
    requires ascend { Ascending 0 (items_of rechecked.now) }
    ensures same { IsTrue result → IsOutline outline.now → (name : List ℕ)
        → IsAmong (names_of (outlined outline.now)) name
        → SeesSame (text_edit L.text items.now) (result_after
        (text_edit L.text items.now) rechecked.now) was item name }
    ensures other { IsFalse result → IsOutline outline.now
        → SeesOther (text_edit L.text items.now) (result_after
        (text_edit L.text items.now) rechecked.now) was item (names_of (outlined outline.now)) }
{
    for declared in outline.declared() {
        if !sees_name_same(items, rechecked, was, item, &declared.name) {
            return false;
        }
    }
    for mention in outline.mentioned() {
        if !sees_name_same(items, rechecked, was, item, mention.name) {
            return false;
        }
    }
    true
}

/// What an item sees after the edit of the names that its definition declares, and then of those that it
/// uses.
pub fn views_of<'v, L: CheckedItems>(
    alloc: Global,
    items: &'v EditedItems<L>,
    rechecked: &'v [Rechecked],
    item: usize,
    outline: &Outline,
) -> Result<Vec<View<'v>>, NoMemory>
    requires items { AreEditedItems L.text items.now }
    requires ascend { Ascending 0 (items_of rechecked.now) }
    ensures { IfOk result (λ views. IsOutline outline.now → map view_view views.items
        ≡ map (view_by (text_edit L.text items.now).known (definitions_after (text_edit L.text items.now))
        (result_after (text_edit L.text items.now) rechecked.now) item) (names_of (outlined outline.now))) }
{
    let count = outline
        .declared()
        .len()
        .saturating_add(outline.mentioned().len());
    let mut views = Vec::with_capacity(alloc, count)?;
    for declared in outline.declared() {
        views.push(new_view(items, rechecked, item, &declared.name))?;
    }
    for mention in outline.mentioned() {
        views.push(new_view(items, rechecked, item, mention.name))?;
    }
    Ok(views)
}
