//! The check of the next item that waits.

ghost use Rattle.std.specs.Prelude.{◌≡◌, ◌<◌, ◌+◌, ℕ, Bool, List, length, map, Option, Some, IfOk, OnOk};
ghost use Rattle.std.specs.Prelude.{IsTrue, true, false};
ghost use Rattle.std.specs.Cow.{cow_slice_items};
ghost use Rattle.std.specs.List.{IsAmong};
ghost use Rattle.x_text.specs.Counts.{Counts};
ghost use Rattle.x_outline.specs.Outlines.{IsOutline, outlined};
ghost use Rattle.x_rules.specs.Results.{Outcome, AreResults, meaning_at, result_at};
ghost use Rattle.x_rules.specs.RustViews.{view_meaning};
ghost use Rattle.x_recheck.specs.Editing.{definitions_after, definition_at, count_after};
ghost use Rattle.x_recheck.specs.inside.Deciding.{AddsItemsFrom, IsDecided, AreEditedItems, IsFoundAs};
ghost use Rattle.x_recheck.specs.inside.Deciding.{IsMeantAs};
ghost use Rattle.x_recheck.specs.inside.Deciding.{IsReady, IsNamed, IsWaitedFor, HasAdvanced};
ghost use Rattle.x_recheck.specs.inside.Deciding.{CountsOn, counts_found, text_edit, is_waiting};
ghost use Rattle.x_recheck.specs.Staleness.{Ascending, checked_more, items_of, result_after};

use super::candidates::add_users;
use super::edited_items::EditedItems;
use super::queue::Queue;
use super::sights::{sees_same, views_of};
use super::{CheckedItems, Rechecked};
use std::alloc::Global;
use x_names::Declarer;
use x_rules::{Checked, Meaning, Outline, check_outline};
use x_text::{Meter, NoMemory};
use x_trees::DeclaredName;

/// What checking an item finds, or `None` where it sees its names as before.
fn find_result<L: CheckedItems>(
    alloc: Global,
    items: &EditedItems<L>,
    rechecked: &[Rechecked],
    item: usize,
    outline: &Outline,
    meter: &mut Meter,
) -> Result<Option<Checked>, NoMemory>
    requires items { AreEditedItems L.text items.now }
    requires item { item < count_after (text_edit L.text items.now) }
    requires ascend { Ascending 0 (items_of rechecked.now) }
    ensures found { IfOk result (λ found. (after : List (Option Outcome))
        → AreResults (text_edit L.text items.now).known (definitions_after (text_edit L.text items.now)) after
        → ((j : ℕ) → j < item → result_after (text_edit L.text items.now) rechecked.now j ≡ result_at after j)
        → IsOutline outline.now
        → definition_at (definitions_after (text_edit L.text items.now)) item ≡ Some (outlined outline.now)
        → IsFoundAs (text_edit L.text items.now) after item found) }
    ensures counted { IfOk result (λ found. meter.new ≡ counts_found meter.old found) }
    ensures counts { CountsOn meter.old meter.new }
{
    if let Some(was) = items.old_number(item) {
        if sees_same(items, rechecked, was, item, outline) {
            return Ok(None);
        }
    }
    let views = views_of(alloc, items, rechecked, item, outline)?;
    let checked = check_outline(alloc, items.uses.hash_key(), outline, &views, meter)?;
    Ok(Some(checked))
}

/// What the name meant before the edit whose first declarer was this one.
fn old_meaning<'i, L: CheckedItems>(items: &'i EditedItems<L>, first: Declarer) -> Meaning<'i>
    ensures { view_meaning result ≡ meaning_at (result_at (text_edit L.text items.now).outcomes) first }
{
    match items.old_checked(first.item) {
        Some(checked) => checked.meaning(first.place),
        None => Meaning::Bad,
    }
}

/// Whether two meanings are the same.
fn is_same_meaning(one: &Meaning, other: &Meaning) -> bool
    ensures { IsTrue result → view_meaning one.now ≡ view_meaning other.now }
{
    one == other
}

/// Whether a name means what it meant, as far as it is for the item to tell, which declares it in this place
/// and where this was found.
fn means_same<L: CheckedItems>(
    items: &EditedItems<L>,
    item: usize,
    place: usize,
    name: &[u8],
    checked: &Checked,
) -> bool
    requires { AreEditedItems L.text items.now }
    ensures { IsTrue result → IsMeantAs (text_edit L.text items.now) item place checked.now name.now }
{
    match (items.first(name), items.first_after(name)) {
        (Some(before), Some(after)) if after.item == item && after.place == place => {
            is_same_meaning(&old_meaning(items, before), &checked.meaning(place))
        }
        _ => true,
    }
}

/// Queues the kept users of a name behind the item, which declares it in this place, unless it means what it
/// meant.
fn tell_name<L: CheckedItems>(
    items: &EditedItems<L>,
    item: usize,
    place: usize,
    name: &[u8],
    checked: &Checked,
    queue: &mut Queue,
) -> Result<(), NoMemory>
    requires items { AreEditedItems L.text items.now }
    requires item { item < count_after (text_edit L.text items.now) }
    ensures adds { OnOk result (AddsItemsFrom (text_edit L.text items.now) queue.old queue.new
        (item + 1)) }
    ensures told { OnOk result (IsWaitedFor (text_edit L.text items.now) item place checked.now
        (is_waiting queue.new) name.now) }
{
    if means_same(items, item, place, name, checked) {
        return Ok(());
    }
    add_users(items, item + 1, name, queue)
}

/// Queues those behind the item that see another meaning of one of its names.
fn tell<L: CheckedItems>(
    items: &EditedItems<L>,
    item: usize,
    names: &[DeclaredName],
    checked: &Checked,
    queue: &mut Queue,
) -> Result<(), NoMemory>
    requires items { AreEditedItems L.text items.now }
    requires item { item < count_after (text_edit L.text items.now) }
    ensures adds { OnOk result (AddsItemsFrom (text_edit L.text items.now) queue.old queue.new
        (item + 1)) }
    ensures told { OnOk result ((name : List ℕ) (place : ℕ) → IsNamed names.now place name
        → IsWaitedFor (text_edit L.text items.now) item place checked.now (is_waiting queue.new) name) }
{
    for (place, declared) in names.iter().enumerate() {
        tell_name(items, item, place, &declared.name, checked, queue)?;
    }
    Ok(())
}

/// Checks an item before which all are decided, unless it sees its names as before.
fn decide<L: CheckedItems>(
    alloc: Global,
    items: &EditedItems<L>,
    item: usize,
    rechecked: &mut Vec<Rechecked>,
    queue: &mut Queue,
    meter: &mut Meter,
) -> Result<(), NoMemory>
    requires items { AreEditedItems L.text items.now }
    requires item { item < count_after (text_edit L.text items.now) }
    requires ascend { Ascending 0 (items_of rechecked.old.items) }
    ensures adds { OnOk result (AddsItemsFrom (text_edit L.text items.now) queue.old queue.new
        (item + 1)) }
    ensures decided { OnOk result ((after : List (Option Outcome)) (waits : ℕ → Bool)
        → AreResults (text_edit L.text items.now).known (definitions_after (text_edit L.text items.now)) after
        → IsDecided (text_edit L.text items.now) after waits rechecked.old.items item
        → ((k : ℕ) → item < k → is_waiting queue.old k ≡ false → waits k ≡ false)
        → IsDecided (text_edit L.text items.now) after (is_waiting queue.new) rechecked.new.items
        (item + 1)) }
    ensures counted { OnOk result ((base : Counts)
        → meter.old ≡ checked_more base (length rechecked.old.items)
        → meter.new ≡ checked_more base (length rechecked.new.items)) }
    ensures counts { CountsOn meter.old meter.new }
{
    let Some(definition) = items.definition(item) else {
        return Ok(());
    };
    let outline = Outline::of(alloc, definition)?;
    let Some(checked) = find_result(alloc, items, rechecked, item, &outline, meter)? else {
        return Ok(());
    };
    tell(items, item, outline.declared(), &checked, queue)?;
    rechecked.push(Rechecked { item, checked })?;
    Ok(())
}

/// Takes the first item out that waits, and checks it unless it sees its names as before. All items before
/// `low` are decided.
pub fn check_next<L: CheckedItems>(
    alloc: Global,
    items: &EditedItems<L>,
    low: usize,
    rechecked: &mut Vec<Rechecked>,
    queue: &mut Queue,
    meter: &mut Meter,
) -> Result<Option<usize>, NoMemory>
    requires items { AreEditedItems L.text items.now }
    requires ready { IsReady (text_edit L.text items.now) queue.old rechecked.old.items low }
    ensures turned { IfOk result (λ r. HasAdvanced
        (text_edit L.text items.now) low r rechecked.new.items queue.new) }
    ensures counted { OnOk result ((base : Counts)
        → meter.old ≡ checked_more base (length rechecked.old.items)
        → meter.new ≡ checked_more base (length rechecked.new.items)) }
    ensures counts { CountsOn meter.old meter.new }
{
    let Some(item) = queue.pop_first() else {
        return Ok(None);
    };
    decide(alloc, items, item, rechecked, queue, meter)?;
    Ok(Some(item))
}
