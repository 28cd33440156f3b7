//! What is read of a table of uses.
ghost use Rattle.std.specs.Prelude.{◌≡◌, map};
ghost use Rattle.x_uses.specs.Occurrences.{declarers_at, users_at, declarer_of};
ghost use Rattle.x_uses.specs.Slots.{slot_at, number_after, front_of, rear_of, item_of_declarer};
ghost use Rattle.x_uses.specs.Slots.{with_item, first_of, first_after};

use super::ItemSplice;
use super::places::count_below;
use super::slot::{CompactDeclarer, Slot};
use x_hash::KeyedTable;
use x_names::Declarer;

/// The names of a text with their slots.
pub type Table = KeyedTable<Vec<u8>, Slot>;

/// The declarers of the name.
fn declarers_in<'t>(table: &'t Table, name: &[u8]) -> &'t [CompactDeclarer]
    ensures { map declarer_of result.now ≡ declarers_at (slot_at table.now.entries name.now) }
{
    match table.get(name) {
        Some(slot) => &slot.declarers,
        None => &[],
    }
}

/// The users of the name.
pub fn users_in<'t>(table: &'t Table, name: &[u8]) -> &'t [u32]
    ensures { result.now ≡ users_at (slot_at table.now.entries name.now) }
{
    match table.get(name) {
        Some(slot) => &slot.users,
        None => &[],
    }
}

/// The first of a list.
fn first_of(declarers: &[CompactDeclarer]) -> Option<Declarer>
    ensures { result ≡ first_of (map declarer_of declarers.now) }
{
    match declarers.first() {
        Some(declarer) => Some(declarer.declarer()),
        None => None,
    }
}

/// The first declarer of the name.
pub fn first_in(table: &Table, name: &[u8]) -> Option<Declarer>
    ensures { result ≡ first_of (declarers_at (slot_at table.now.entries name.now)) }
{
    first_of(declarers_in(table, name))
}

/// The first that stands below a bound.
fn first_before(declarers: &[CompactDeclarer], bound: usize) -> Option<Declarer>
    ensures { result ≡ first_of (front_of item_of_declarer bound (map declarer_of declarers.now)) }
{
    first_of(&declarers[..count_below(declarers, bound)])
}

/// The first that stands at a bound or behind it.
fn first_behind(declarers: &[CompactDeclarer], bound: usize) -> Option<Declarer>
    ensures { result ≡ first_of (rear_of item_of_declarer bound (map declarer_of declarers.now)) }
{
    first_of(&declarers[count_below(declarers, bound)..])
}

/// A declarer that has got another number of its item.
fn with_item(declarer: Declarer, item: usize) -> Declarer
    ensures { result ≡ with_item item declarer }
{
    Declarer { item, ..declarer }
}

/// The first declarer of the name once an edit puts the items of `fresh` in at the place.
pub fn first_after_in(
    table: &Table,
    fresh: &Table,
    place: ItemSplice,
    name: &[u8],
) -> Option<Declarer>
    ensures { result ≡ first_after place (declarers_at (slot_at fresh.now.entries name.now))
        (declarers_at (slot_at table.now.entries name.now)) }
{
    let declarers = declarers_in(table, name);
    if let Some(declarer) = first_before(declarers, place.at) {
        return Some(declarer);
    }
    if let Some(declarer) = first_in(fresh, name) {
        return Some(with_item(declarer, place.at.saturating_add(declarer.item)));
    }
    match first_behind(declarers, place.at.saturating_add(place.removed)) {
        Some(declarer) => Some(with_item(declarer, place.number_after(declarer.item))),
        None => None,
    }
}
