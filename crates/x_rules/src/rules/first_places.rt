//! Lists in which the first that has a key is found.

ghost use Rattle.std.specs.Prelude.{◌≡◌, ◌≤◌, [], Bool, length, IfOk, OnOk};
ghost use Rattle.std.specs.Str.{bytes_eq};
ghost use Rattle.x_rules.specs.FirstPlaces.{first_from, is_behind, HasFirsts};

use indexmap::IndexMap;
use std::alloc::Global;
use std::hash::Hash;
use std::marker::Model;
use x_hash::{HashKey, KeyedTable};
use x_text::NoMemory;

/// So many elements are few. They are compared one by one: most definitions have no more, and making a table
/// takes longer.
pub const MOST_FEW: usize = 12;

/// What has a key: a name, a number, or the word of a name.
pub trait Keyed<K: Eq> {
    /// Whether a key is equal to that of this.
    ghost has_key: { Self → K → Bool };

    /// The key.
    fn key(&self) -> K
        ensures { (other : K) → K.eq other result ≡ has_key self.now other };
}

impl<'v> Keyed<&'v [u8]> for &'v [u8] {
    ghost has_key = { λ x name. bytes_eq name.now x.now };

    fn key(&self) -> &'v [u8] {
        self
    }
}

/// A list in which the first that has a key is found. It is seen as the list.
#[derive(Drop)]
pub struct FirstPlaces<'v, T: Keyed<K>, K: Copy + Eq + Hash> {
    items: &'v [T],
    /// The first place of each key, if there are many.
    table: Option<KeyedTable<K, usize>>,
}

impl<'v, T: Keyed<K>, K: Copy + Eq + Hash> Model for FirstPlaces<'v, T, K> {
    ghost use Rattle.std.specs.Prelude.{List, IfSome};
    ghost use Rattle.x_rules.specs.FirstPlaces.{HasFirsts};

    ghost Value = { List T };

    ghost view = { λ places. places.items.now };

    ghost invariant = { λ places.
        IfSome places.table (λ table. HasFirsts K.eq T.has_key table.entries places.items.now) };
}

/// Puts the first place of each key of a list into a table that has none, from the last to the first, so that
/// the first place of a key is what it is left with.
fn fill<T: Keyed<K>, K: Copy + Eq + Hash>(
    table: &mut KeyedTable<K, usize>,
    items: &[T],
) -> Result<(), NoMemory>
    requires { table.old.entries ≡ [] }
    ensures { OnOk result (HasFirsts K.eq T.has_key table.new.entries items.now) }
{
    for place in (0..items.len()).rev() {
        table.insert(items[place].key(), place)?;
    }
    Ok(())
}

/// A table of the first place of each key.
fn table_of<T: Keyed<K>, K: Copy + Eq + Hash>(
    alloc: Global,
    hash_key: HashKey,
    items: &[T],
) -> Result<KeyedTable<K, usize>, NoMemory>
    ensures { IfOk result (λ table. HasFirsts K.eq T.has_key table.entries items.now) }
{
    let mut table = IndexMap::with_capacity_and_hasher(alloc, items.len(), hash_key)?;
    fill(&mut table, items)?;
    Ok(table)
}

/// The place of the first of these that has the key, by going over them.
fn place_among<T: Keyed<K>, K: Copy + Eq + Hash>(items: &[T], key: K) -> Option<usize>
    ensures { result ≡ first_from (λ x. T.has_key x key) 0 items.now }
{
    for (place, item) in items.iter().enumerate() {
        if key == item.key() {
            return Some(place);
        }
    }
    None
}

/// Whether there is a first place, and it is before this one.
pub fn is_behind(first: Option<usize>, place: usize) -> bool
    ensures { result ≡ is_behind first place }
{
    match first {
        Some(first) => first < place,
        None => false,
    }
}

impl<'v, T: Keyed<K>, K: Copy + Eq + Hash> FirstPlaces<'v, T, K> {
    /// The list, and a table of it if it is long, which hashes by the key.
    pub fn of(
        alloc: Global,
        hash_key: HashKey,
        items: &'v [T],
    ) -> Result<FirstPlaces<'v, T, K>, NoMemory>
        ensures { IfOk result (λ places. places ≡ items.now) }
    {
        let table = if items.len() <= MOST_FEW {
            None
        } else {
            Some(table_of(alloc, hash_key, items)?)
        };
        Ok(FirstPlaces { items, table })
    }

    /// The list.
    pub fn items(&self) -> &'v [T]
        ensures { result.now ≡ self.now }
    {
        self.items
    }

    /// The place of the first that has the key.
    pub fn get(&self, key: K) -> Option<usize>
        ensures { result ≡ first_from (λ x. T.has_key x key) 0 self.now }
    {
        match &self.table {
            Some(table) => table.get(&key).copied(),
            None => place_among(self.items, key),
        }
    }

    /// Whether one before the place has the key.
    #[tactic(auto, using(crate::proofs::FirstLemmas::some_behind))]
    pub fn has_before(&self, place: usize, key: K) -> bool
        requires { place ≤ length self.now }
        ensures { result ≡ is_behind (first_from (λ x. T.has_key x key) 0 self.now) place }
    {
        match &self.table {
            Some(table) => is_behind(table.get(&key).copied(), place),
            None => place_among(&self.items[..place], key).is_some(),
        }
    }
}
