//! How a table of uses follows an edit, without memory.
ghost use Rattle.std.specs.Prelude.{◌≡◌, ◌<◌, ◌≤◌, ◌+◌, ◌^◌, ℕ, true, List, [], length, take, drop};
ghost use Rattle.std.specs.Prelude.{option_map, slice_get, Some};
ghost use Rattle.std.specs.Global.{Vec};
ghost use Rattle.std.specs.List.{splice};
ghost use Rattle.x_uses.specs.Occurrences.{Definitions, IsUsesOf, HasRoom, declarers_at, users_at};
ghost use Rattle.x_uses.specs.Slots.{slot_at, Changes, ChangesEach, HasSameLists, RoomFor, names_of_entries};
ghost use Rattle.x_uses.specs.Slots.{slot_stays, slot_renumbered, going, coming, HasSameSlots};
ghost use Rattle.x_uses.specs.Slots.{AreEmptyFrom, StandsIn};

use super::ItemSplice;
use super::slot::Slot;
use super::table::Table;

/// Takes the items that the edit takes out from the name.
fn take_out_at(table: &mut Table, name: &[u8], place: ItemSplice)
    ensures { Changes table.old.entries table.new.entries name.now (option_map (slot_stays place)) }
{
    if let Some(slot) = table.get_mut(name) {
        slot.take_out(place);
    }
}

/// Whether the name stands in a place of the table.
fn stands_in(table: &Table, index: usize, name: &[u8]) -> bool
    ensures { result ≡ true → StandsIn table.now.entries index name.now }
{
    match table.get_index(index) {
        Some((key, _slot)) => name == key.as_slice(),
        None => false,
    }
}

/// The place behind a name, if it has one.
fn behind(table: &Table, name: &[u8]) -> usize {
    match table.get_index_of(name) {
        Some(index) => index.saturating_add(1),
        None => 0,
    }
}

/// Takes the items that the edit takes out from the name, which is looked for first in a place: names that
/// stand behind one another are found so in the order of the memory. Answers the place behind it.
fn take_out_near(table: &mut Table, near: usize, name: &[u8], place: ItemSplice) -> usize
    ensures { Changes table.old.entries table.new.entries name.now (option_map (slot_stays place)) }
{
    if !stands_in(table, near, name) {
        take_out_at(table, name, place);
        return behind(table, name);
    }
    if let Some(slot) = table.get_index_mut(near) {
        slot.take_out(place);
    }
    near.saturating_add(1)
}

/// The same of each name of another table.
fn take_out_each(table: &mut Table, gone: &Table, place: ItemSplice)
    ensures { ChangesEach table.old.entries table.new.entries gone.now.entries (going place) }
{
    let mut near = 0;
    for (name, _slot) in gone {
        near = take_out_near(table, near, name, place);
    }
}

/// Gives all items their numbers after the edit. They are others only where it puts in more or fewer items
/// than it takes out.
fn renumber(table: &mut Table, place: ItemSplice)
    ensures same { place.removed ≡ place.added → HasSameSlots table.old.entries table.new.entries }
    ensures moved { (place.removed ≡ place.added → ⊥) → (name : List ℕ) → slot_at table.new.entries name
        ≡ option_map (slot_renumbered place) (slot_at table.old.entries name) }
{
    if place.removed != place.added {
        renumber_each(table, place);
    }
}

/// The same in any case.
fn renumber_each(table: &mut Table, place: ItemSplice)
    ensures { (name : List ℕ) → slot_at table.new.entries name
        ≡ option_map (slot_renumbered place) (slot_at table.old.entries name) }
{
    for index in 0..table.len() {
        table[index].renumber(place);
    }
}

/// Puts in what another table has of the name, whose items are counted from `at`.
fn put_in_at(table: &mut Table, name: &[u8], at: usize, fresh: &Slot)
    requires { HasRoom (slot_at table.old.entries name.now) fresh.now }
    ensures { Changes table.old.entries table.new.entries name.now (coming at fresh.now) }
{
    if let Some(slot) = table.get_mut(name) {
        slot.put_in(at, fresh);
    }
}

/// The same of each name of the other table.
fn put_in_each(table: &mut Table, fresh: &Table, at: usize)
    requires { RoomFor table.old.entries fresh.now.entries }
    ensures { ChangesEach table.old.entries table.new.entries fresh.now.entries (coming at) }
{
    for (name, slot) in fresh {
        put_in_at(table, name, at, slot);
    }
}

/// Takes the name out if nothing declares or mentions it any more.
fn forget_at(table: &mut Table, name: &[u8])
    ensures { HasSameLists table.old.entries table.new.entries }
{
    if has_empty_slot(table, name) {
        table.swap_remove(name);
    }
}

/// Whether the name in a place has a slot without declarers and users.
fn has_empty_slot_in(table: &Table, index: usize) -> bool
    ensures { result ≡ true → (e : Vec ℕ × Slot) → slice_get table.now.entries index ≡ Some e
        → (e.1.declarers.items ≡ []) × (e.1.users.items ≡ []) }
{
    match table.get_index(index) {
        Some((_name, slot)) => slot.is_empty(),
        None => false,
    }
}

/// Whether the name has a slot without declarers and users.
fn has_empty_slot(table: &Table, name: &[u8]) -> bool
    ensures declarers { result ≡ true → declarers_at (slot_at table.now.entries name.now) ≡ [] }
    ensures users { result ≡ true → users_at (slot_at table.now.entries name.now) ≡ [] }
{
    match table.get(name) {
        Some(slot) => slot.is_empty(),
        None => false,
    }
}

/// The number of names without the last ones that nothing declares or mentions any more.
fn count_without_last(table: &Table) -> usize
    ensures { AreEmptyFrom result table.now.entries }
{
    let mut count = table.len();
    while 0 < count && has_empty_slot_in(table, count - 1) {
        count -= 1;
    }
    count
}

/// Takes out each name of another table that nothing declares or mentions any more. Those of one large item
/// mostly stand behind all others, and go at once.
fn forget_each(table: &mut Table, gone: &Table)
    ensures { HasSameLists table.old.entries table.new.entries }
{
    let len = table.len();
    let count = count_without_last(table);
    table.truncate(count);
    if len.saturating_sub(count) < gone.len() {
        for (name, _slot) in gone {
            forget_at(table, name);
        }
    }
}

/// Follows an edit that takes out the items at the place, with the uses `gone`, and puts in those of `fresh`.
pub fn replace_in(table: &mut Table, place: ItemSplice, gone: &Table, fresh: &Table)
    requires { RoomFor table.old.entries fresh.now.entries }
    ensures { (old put : Definitions) → IsUsesOf old (names_of_entries table.old.entries)
        → IsUsesOf (take place.removed (drop place.at old)) (names_of_entries gone.now.entries)
        → IsUsesOf put (names_of_entries fresh.now.entries)
        → place.at + place.removed ≤ length old → place.added ≡ length put
        → length old + place.added < 2 ^ 32
        → IsUsesOf (splice old place.at (place.at + place.removed) put) (names_of_entries table.new.entries) }
{
    take_out_each(table, gone, place);
    renumber(table, place);
    put_in_each(table, fresh, place.at);
    forget_each(table, gone);
}
