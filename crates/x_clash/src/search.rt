//! Which names of a text clash.

ghost use Rattle.std.specs.Prelude.{◌≡◌, ◌++◌, ◌∷◌, [], List, map, option_map, OnOk, IfOk};
ghost use Rattle.std.specs.Cow.{cow_slice_items};
ghost use Rattle.std.specs.Option.{option_to_list};
ghost use Rattle.x_trees.specs.View.{tree_at, view_definition};
ghost use Rattle.x_trees.specs.Spell.{IsShort};
ghost use Rattle.x_names.specs.Declarers.{AreShort};
ghost use Rattle.x_taken.specs.TakenNames.{taken_in};
ghost use Rattle.x_clash.specs.Clashes.{AreClashes, AreInOrder, Thing, clashes_behind, clashes_of};
ghost use Rattle.x_clash.specs.Clashes.{has_number, is_in_way, rival_of_c, thing, things_of, twin_of};
ghost use Rattle.x_clash.specs.Table.{HasFirsts, firsts_in};
ghost use Rattle.x_clash.specs.Views.{clash_at, view_all, view_clash, view_given, view_sort};

use crate::clash::{Clash, Place, Rival};
use crate::firsts::Firsts;
use crate::given::{Given, Sort, joined, kept};
use crate::names::names_given;
use indexmap::IndexMap;
use std::alloc::Global;
use std::borrow::CowSlice;
use x_hash::{HashKey, KeyedTable};
use x_taken::{Taken, TakenAs};
use x_text::NoMemory;
use x_trees::Definition;

/// Whether a name that C has already is in the way of a thing of the sort.
fn is_in_way(kind: TakenAs, sort: &Sort) -> bool
    ensures { result ≡ is_in_way kind (view_sort sort.now) }
{
    match (kind, sort) {
        (_, Sort::Macro(_)) => true,
        (TakenAs::Keyword | TakenAs::KeywordOfCpp | TakenAs::Macro, _) => true,
        (TakenAs::CallMacro, Sort::Function) => true,
        (TakenAs::Name | TakenAs::TaggedName, Sort::Tagged | Sort::Function | Sort::Plain) => true,
        (TakenAs::Tag, Sort::Tagged) => true,
        (TakenAs::Parameter, Sort::Tagged | Sort::Plain) => true,
        _ => false,
    }
}

/// Whether C has a macro of the name that stands for the same number, spelled alike.
fn has_number(alloc: Global, taken: &Taken, name: &[u8], sort: &Sort) -> Result<bool, NoMemory>
    ensures { IfOk result (λ has. has ≡ has_number (taken_in taken.now) name.now (view_sort sort.now)) }
{
    match sort {
        Sort::Macro(text) => {
            let with_number = joined(alloc, &[name, b"=", text])?;
            Ok(taken.get(&with_number).is_some())
        }
        _ => Ok(false),
    }
}

/// What C has a name for, if that is in the way.
fn rival_of_c(alloc: Global, taken: &Taken, given: &Given) -> Result<Option<Rival>, NoMemory>
    ensures { IfOk result (λ rival. rival ≡ rival_of_c (taken_in taken.now) (view_given given.now)) }
{
    let Some(kind) = taken.get(&given.name) else {
        return Ok(None);
    };
    if !is_in_way(kind, &given.sort) {
        return Ok(None);
    }
    if has_number(alloc, taken, &given.name, &given.sort)? {
        return Ok(None);
    }
    Ok(Some(Rival::OfC(kind)))
}

/// The other member of the same struct that has the name.
fn twin_of(item: usize, given: &Given) -> Option<Rival>
    ensures { result ≡ twin_of (thing item (view_given given.now)) }
{
    match given.twin {
        Some(word) => Some(Rival::OfText(Place { item, word })),
        None => None,
    }
}

/// The thing of the text that is met, if one is.
fn rival_at(met: Option<Place>) -> Option<Rival>
    ensures { result ≡ option_map Rival.OfText met }
{
    match met {
        Some(place) => Some(Rival::OfText(place)),
        None => None,
    }
}

/// What is kept of the things of a name.
fn firsts_in<'d>(table: &KeyedTable<CowSlice<'d, u8>, Firsts<'d>>, name: &[u8]) -> Firsts<'d>
    ensures { result ≡ firsts_in table.now.entries name.now }
{
    match table.get(name) {
        Some(firsts) => *firsts,
        None => Firsts::none(),
    }
}

/// Adds the clash of a name with this rival, if there is one.
fn add_clash<'d>(
    alloc: Global,
    found: &mut Vec<Clash<'d>>,
    name: &CowSlice<'d, u8>,
    place: Place,
    rival: Option<Rival>,
) -> Result<(), NoMemory>
    ensures { OnOk result (map view_clash found.new.items ≡ map view_clash found.old.items
        ++ map (clash_at (cow_slice_items name.now) place) (option_to_list rival)) }
{
    if let Some(rival) = rival {
        let name = kept(alloc, name)?;
        found.push(Clash { name, place, rival })?;
    }
    Ok(())
}

/// Adds the clashes of a thing of an item, behind those in the table, and puts it there.
fn meet<'d>(
    alloc: Global,
    taken: &Taken,
    table: &mut KeyedTable<CowSlice<'d, u8>, Firsts<'d>>,
    found: &mut Vec<Clash<'d>>,
    item: usize,
    given: Given<'d>,
) -> Result<(), NoMemory>
    ensures table { OnOk result ((things : List Thing) → HasFirsts table.old.entries things
        → HasFirsts table.new.entries (things ++ thing item (view_given given.entry) ∷ [])) }
    ensures found { OnOk result ((things : List Thing) → HasFirsts table.old.entries things
        → map view_clash found.new.items ≡ map view_clash found.old.items
        ++ clashes_of (taken_in taken.now) things (thing item (view_given given.entry))) }
{
    let place = Place {
        item,
        word: given.word,
    };
    let firsts = firsts_in(table, &given.name);
    let met = firsts.met_by(&given.sort);
    let of_c = rival_of_c(alloc, taken, &given)?;
    add_clash(alloc, found, &given.name, place, of_c)?;
    add_clash(alloc, found, &given.name, place, twin_of(item, &given))?;
    add_clash(alloc, found, &given.name, place, rival_at(met))?;
    let after = firsts.with(&given.sort, place);
    table.insert(given.name, after)?;
    Ok(())
}

/// Adds the clashes of the things of an item, behind those in the table, and puts them there.
fn meet_all<'d>(
    alloc: Global,
    taken: &Taken,
    table: &mut KeyedTable<CowSlice<'d, u8>, Firsts<'d>>,
    found: &mut Vec<Clash<'d>>,
    item: usize,
    names: Vec<Given<'d>>,
) -> Result<(), NoMemory>
    ensures table { OnOk result ((things : List Thing) → HasFirsts table.old.entries things
        → HasFirsts table.new.entries (things ++ map (thing item) (view_all names.entry.items))) }
    ensures found { OnOk result ((things : List Thing) → HasFirsts table.old.entries things
        → map view_clash found.new.items ≡ map view_clash found.old.items
        ++ clashes_behind (taken_in taken.now) things (map (thing item) (view_all names.entry.items))) }
{
    for given in names {
        meet(alloc, taken, table, found, item, given)?;
    }
    Ok(())
}

/// The clashes of an item, behind the things in the table, in the order of their words; and its things are
/// put there.
fn clashes_in<'d>(
    alloc: Global,
    taken: &Taken,
    table: &mut KeyedTable<CowSlice<'d, u8>, Firsts<'d>>,
    item: usize,
    definition: &'d Definition,
) -> Result<Vec<Clash<'d>>, NoMemory>
    ensures table { OnOk result (IsShort (view_definition definition.now)
        → (things : List Thing) → HasFirsts table.old.entries things
        → HasFirsts table.new.entries (things ++ things_of item (Some (view_definition definition.now)))) }
    ensures found { IfOk result (λ found. IsShort (view_definition definition.now)
        → (things : List Thing) → HasFirsts table.old.entries things
        → AreInOrder (clashes_behind (taken_in taken.now) things
        (things_of item (Some (view_definition definition.now)))) found.items) }
{
    let mut found = Vec::new(alloc);
    let names = names_given(alloc, definition)?;
    meet_all(alloc, taken, table, &mut found, item, names)?;
    found.sort_by_key(|clash| clash.place.word)?;
    Ok(found)
}

/// The names of a text that clash in C: item by item, those of an item in the order of the words that lead to
/// them, each with what has the name already. An item without a definition, or with a fault, has none.
///
/// Takes time in proportion to the definitions, but for sorting the clashes of an item. The table of names
/// hashes by the key: who chose the names of the text must not know it.
///
/// # Errors
///
/// [`NoMemory`] where a name, a clash or the table could not be kept.
pub fn clashes<'d>(
    alloc: Global,
    key: HashKey,
    taken: &Taken,
    definitions: &[Option<&'d Definition>],
) -> Result<Vec<Clash<'d>>, NoMemory>
    ensures { IfOk result (λ found. AreShort (map tree_at definitions.now)
        → AreClashes (taken_in taken.now) 0 [] (map tree_at definitions.now) found.items) }
{
    let mut table = IndexMap::with_hasher(alloc, key);
    let mut found = Vec::new(alloc);
    for (item, definition) in definitions.iter().enumerate() {
        if let Some(definition) = definition {
            let mut here = clashes_in(alloc, taken, &mut table, item, definition)?;
            found.append(&mut here)?;
        }
    }
    Ok(found)
}
