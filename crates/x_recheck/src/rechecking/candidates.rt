//! The items that wait for a check because of an edit, or of what another item means.

ghost use Rattle.std.specs.Prelude.{◌≡◌, ◌<◌, ◌≤◌, ◌+◌, ℕ, List, [], length, Option, Some, IfOk, OnOk};
ghost use Rattle.std.specs.Prelude.{IsTrue, true, false};
ghost use Rattle.x_trees.specs.Tree.{Definition as Tree};
ghost use Rattle.x_names.specs.declared.names.Declarer.{Declarer as First};
ghost use Rattle.x_recheck.specs.Editing.{count_after, definition_at, definitions_after, old_number};
ghost use Rattle.x_recheck.specs.inside.Deciding.{AddsItemsFrom, AreCovered, AreCoveredAt, AreEditedItems};
ghost use Rattle.x_recheck.specs.inside.Deciding.{IsAlike};
ghost use Rattle.x_recheck.specs.inside.Deciding.{IsCovered, IsFirst, IsFormer, IsOfOld, IsKeptUser, IsNamed};
ghost use Rattle.x_recheck.specs.inside.Deciding.{IsReady};
ghost use Rattle.x_recheck.specs.inside.Deciding.{text_edit, is_waiting};

use super::CheckedItems;
use super::edited_items::EditedItems;
use super::queue::Queue;
use std::alloc::Global;
use x_names::Declarer;
use x_text::NoMemory;
use x_trees::{DeclaredName, Glossary};

/// Queues an item before the edit, if it is kept and its number is `low` or more.
fn add_user<L: CheckedItems>(
    items: &EditedItems<L>,
    low: usize,
    was: usize,
    queue: &mut Queue,
) -> Result<(), NoMemory>
    requires items { AreEditedItems L.text items.now }
    requires was { was < length (text_edit L.text items.now).old }
    ensures adds { OnOk result (AddsItemsFrom (text_edit L.text items.now) queue.old queue.new low) }
    ensures waits { OnOk result ((k : ℕ) → low ≤ k → old_number items.now.place k ≡ Some was
        → is_waiting queue.new k ≡ true) }
{
    match items.new_number(was) {
        Some(item) if low <= item => queue.insert(item),
        _ => Ok(()),
    }
}

/// Queues the kept users of a name whose numbers are `low` or more.
pub fn add_users<L: CheckedItems>(
    items: &EditedItems<L>,
    low: usize,
    name: &[u8],
    queue: &mut Queue,
) -> Result<(), NoMemory>
    requires { AreEditedItems L.text items.now }
    ensures adds { OnOk result (AddsItemsFrom (text_edit L.text items.now) queue.old queue.new low) }
    ensures waits { OnOk result ((k : ℕ) → low ≤ k → IsKeptUser (text_edit L.text items.now) k name.now
        → is_waiting queue.new k ≡ true) }
{
    for user in items.users(name) {
        add_user(items, low, *user as usize, queue)?;
    }
    Ok(())
}

/// Whether an item before the edit is this one after it, or went for a fresh one.
fn is_former<L: CheckedItems>(items: &EditedItems<L>, before: usize, after: usize) -> bool
    requires items { AreEditedItems L.text items.now }
    requires after { after < count_after (text_edit L.text items.now) }
    ensures { IsTrue result → IsFormer items.now.place before (old_number items.now.place after) }
{
    let place = items.place;
    match items.old_number(after) {
        Some(was) => before == was,
        None => place.at <= before && before < place.at + place.removed,
    }
}

/// Whether these first declarers of a name, before the edit and after it, are alike to each kept item, but
/// for what the name means.
fn is_alike<L: CheckedItems>(
    items: &EditedItems<L>,
    before: Option<Declarer>,
    after: Option<Declarer>,
) -> bool
    requires items { AreEditedItems L.text items.now }
    requires after { (f : First) → after ≡ Some f → f.item < count_after (text_edit L.text items.now) }
    ensures { IsTrue result → IsAlike items.now.place before after }
{
    match (before, after) {
        (None, None) => true,
        (Some(before), Some(after)) => {
            is_former(items, before.item, after.item)
                && before.kind == after.kind
                && before.lifted == after.lifted
        }
        _ => false,
    }
}

/// Whether this is where the item declares the name first.
fn is_at(first: Option<Declarer>, item: usize, place: usize) -> bool
    ensures { (f : First) → first ≡ Some f → f.item ≡ item → f.place ≡ place → IsTrue result }
{
    match first {
        Some(declarer) => declarer.item == item && declarer.place == place,
        None => false,
    }
}

/// Whether a name may have kept users. It has none where its one user goes, as most names of an item that is
/// edited.
fn may_have_kept_users<L: CheckedItems>(items: &EditedItems<L>, name: &[u8]) -> bool
    requires { AreEditedItems L.text items.now }
    ensures { (k : ℕ) → IsKeptUser (text_edit L.text items.now) k name.now → IsTrue result }
{
    match items.users(name) {
        [] => false,
        [user] => items.new_number(*user as usize).is_some(),
        _ => true,
    }
}

/// Queues the kept users of a name, if the item declares it first in this place and first declarers are not
/// alike. So the users are gone over once for each name, however many items declare it.
fn add_candidates<L: CheckedItems>(
    items: &EditedItems<L>,
    item: usize,
    place: usize,
    name: &[u8],
    queue: &mut Queue,
) -> Result<(), NoMemory>
    requires { AreEditedItems L.text items.now }
    ensures adds { OnOk result (AddsItemsFrom (text_edit L.text items.now) queue.old queue.new 0) }
    ensures covered { OnOk result ((f : First) → IsFirst (text_edit L.text items.now) name.now f
        → f.item ≡ item → f.place ≡ place
        → IsCovered (text_edit L.text items.now) (is_waiting queue.new) name.now) }
{
    if !may_have_kept_users(items, name) {
        return Ok(());
    }
    let before = items.first(name);
    let after = items.first_after(name);
    if !is_at(before, item, place) && !is_at(after, item, place) {
        return Ok(());
    }
    if is_alike(items, before, after) {
        return Ok(());
    }
    add_users(items, 0, name, queue)
}

/// Queues those that see one of these names otherwise, which the item declares, because of who declares it.
fn add_candidates_of<L: CheckedItems>(
    items: &EditedItems<L>,
    item: usize,
    names: &[DeclaredName],
    queue: &mut Queue,
) -> Result<(), NoMemory>
    requires { AreEditedItems L.text items.now }
    ensures adds { OnOk result (AddsItemsFrom (text_edit L.text items.now) queue.old queue.new 0) }
    ensures covered { OnOk result ((name : List ℕ) (f : First)
        → IsFirst (text_edit L.text items.now) name f → f.item ≡ item → IsNamed names.now f.place name
        → IsCovered (text_edit L.text items.now) (is_waiting queue.new) name) }
{
    for (place, declared) in names.iter().enumerate() {
        add_candidates(items, item, place, &declared.name, queue)?;
    }
    Ok(())
}

/// Queues those that see a name otherwise because an item goes, which is taken as it was before the edit.
fn add_gone<'i, L: CheckedItems>(
    alloc: Global,
    items: &'i EditedItems<L>,
    glossary: &mut Glossary<'i>,
    item: usize,
    queue: &mut Queue,
) -> Result<(), NoMemory>
    requires { AreEditedItems L.text items.now }
    ensures adds { OnOk result (AddsItemsFrom (text_edit L.text items.now) queue.old queue.new 0) }
    ensures covered { OnOk result (AreCoveredAt (text_edit L.text items.now) (is_waiting queue.new)
        (text_edit L.text items.now).old item) }
{
    let Some(definition) = items.old_definition(item) else {
        return Ok(());
    };
    glossary.read(alloc, definition)?;
    add_candidates_of(items, item, &glossary.declared, queue)
}

/// Queues a fresh item, if it has a definition, and those that see a name otherwise because of it.
fn add_fresh<'i, L: CheckedItems>(
    alloc: Global,
    items: &'i EditedItems<L>,
    glossary: &mut Glossary<'i>,
    item: usize,
    queue: &mut Queue,
) -> Result<(), NoMemory>
    requires items { AreEditedItems L.text items.now }
    requires item { item < count_after (text_edit L.text items.now) }
    ensures adds { OnOk result (AddsItemsFrom (text_edit L.text items.now) queue.old queue.new 0) }
    ensures waits { OnOk result ((d : Tree)
        → definition_at (definitions_after (text_edit L.text items.now)) item ≡ Some d
        → is_waiting queue.new item ≡ true) }
    ensures covered { OnOk result (AreCoveredAt (text_edit L.text items.now) (is_waiting queue.new)
        (definitions_after (text_edit L.text items.now)) item) }
{
    let Some(definition) = items.definition(item) else {
        return Ok(());
    };
    glossary.read(alloc, definition)?;
    queue.insert(item)?;
    add_candidates_of(items, item, &glossary.declared, queue)
}

/// Queues those that see a name otherwise because of the items that go.
fn add_all_gone<L: CheckedItems>(
    alloc: Global,
    items: &EditedItems<L>,
    queue: &mut Queue,
) -> Result<(), NoMemory>
    requires { AreEditedItems L.text items.now }
    ensures adds { OnOk result (AddsItemsFrom (text_edit L.text items.now) queue.old queue.new 0) }
    ensures covered { OnOk result (AreCovered (text_edit L.text items.now) (is_waiting queue.new)
        (text_edit L.text items.now).old items.now.place.at
        (items.now.place.at + items.now.place.removed)) }
{
    let place = items.place;
    let mut glossary = Glossary::new(alloc);
    for item in place.at..place.at + place.removed {
        add_gone(alloc, items, &mut glossary, item, queue)?;
    }
    Ok(())
}

/// Queues the fresh items that have a definition, and those that see a name otherwise because of them.
fn add_all_fresh<L: CheckedItems>(
    alloc: Global,
    items: &EditedItems<L>,
    queue: &mut Queue,
) -> Result<(), NoMemory>
    requires { AreEditedItems L.text items.now }
    ensures adds { OnOk result (AddsItemsFrom (text_edit L.text items.now) queue.old queue.new 0) }
    ensures kept { OnOk result ((k : ℕ) → is_waiting queue.new k ≡ false
        → IsOfOld (text_edit L.text items.now) k) }
    ensures covered { OnOk result (AreCovered (text_edit L.text items.now) (is_waiting queue.new)
        (definitions_after (text_edit L.text items.now)) items.now.place.at
        (items.now.place.at + items.now.place.added)) }
{
    let place = items.place;
    let mut glossary = Glossary::new(alloc);
    for item in place.at..place.at + place.added {
        add_fresh(alloc, items, &mut glossary, item, queue)?;
    }
    Ok(())
}

/// The items that wait before any is checked.
pub fn first_candidates<L: CheckedItems>(
    alloc: Global,
    items: &EditedItems<L>,
) -> Result<Queue, NoMemory>
    requires { AreEditedItems L.text items.now }
    ensures { IfOk result (λ queue. IsReady (text_edit L.text items.now) queue [] 0) }
{
    let mut queue = Queue::new(alloc);
    add_all_gone(alloc, items, &mut queue)?;
    add_all_fresh(alloc, items, &mut queue)?;
    Ok(queue)
}
