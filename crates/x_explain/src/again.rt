//! The names of inline types that a text declares although they are declared before.

ghost use Rattle.std.specs.Prelude.{◌≡◌, ◌==◌, ℕ, List, [], Some, None, IfOk, OnOk, map, option_map};
ghost use Rattle.std.specs.Prelude.{if◌then◌else◌};
ghost use Rattle.std.specs.Cow.{cow_slice_items};
ghost use Rattle.std.specs.Option.{option_or};
ghost use Rattle.x_trees.specs.Collected.{view_name};
ghost use Rattle.x_compile.specs.Compile.{Item};
ghost use Rattle.x_session.specs.Session.{Compiles};
ghost use Rattle.x_session.specs.DeclaredNames.{IsTableOf};
ghost use Rattle.x_explain.specs.AgainNames.{AreAgain, again_among, again_at, at_start};
ghost use Rattle.x_explain.specs.AgainNames.{ends_with_own, entry_at, is_alone, is_elsewhere, name_at};
ghost use Rattle.x_explain.specs.AgainNames.{start_again, start_of};

use indexmap::IndexMap;
use std::alloc::Global;
use std::borrow::CowSlice;
use x_hash::KeyedTable;
use x_item::{DeclaredName, Glossary};
use x_names::Declarer;
use x_session::{DeclaredNames, Session};
use x_text::NoMemory;

/// The whole names of the inline types that a text declares although they are declared before, by place.
#[derive(Drop)]
pub(crate) struct AgainNames<'s> {
    /// A name is found by the place where its word starts.
    table: KeyedTable<usize, CowSlice<'s, u8>>,
}

impl<'s> AgainNames<'s> {
    /// Those of a text whose names were declared so. It takes time in proportion to the text, and memory for
    /// what it finds and for the names of one definition. It goes from the last item to the first, so that a
    /// place is left with its first name.
    ///
    /// # Errors
    ///
    /// [`NoMemory`] where the table, or a list of names, could not grow.
    pub(crate) fn of(
        alloc: Global,
        session: &'s Session,
        declared: &DeclaredNames<'s>,
    ) -> Result<AgainNames<'s>, NoMemory>
        requires { Compiles session.now.known session.now.text
            (λ items. IsTableOf session.now.text items declared.now) }
        ensures { IfOk result (λ names. Compiles session.now.known session.now.text
            (λ items. AreAgain items names)) }
    {
        // So many tokens fit, and no definition has more words.
        let _ = session.token_count();
        let mut table = IndexMap::with_hasher(alloc, session.hash_key());
        let mut glossary = Glossary::new(alloc);
        for item in (0..session.item_count()).rev() {
            if let Some(definition) = session.definition(item) {
                glossary.read(alloc, definition)?;
                add(declared, &mut table, &mut glossary, item)?;
            }
        }
        Ok(AgainNames { table })
    }

    /// The whole name of the inline type that is declared again by the word at a place.
    pub(crate) fn at(&self, start: usize) -> Option<&[u8]>
        ensures { (items : List Item) → AreAgain items self.now
            → option_map (λ n. n.now) result ≡ again_at items start }
    {
        match self.table.get(&start) {
            Some(name) => Some(name.as_slice()),
            None => None,
        }
    }
}

/// Takes in the names of an item that are declared again, in place of those of later items. This empties the
/// list of all its names, from the last to the first.
fn add<'s>(
    declared: &DeclaredNames<'s>,
    table: &mut KeyedTable<usize, CowSlice<'s, u8>>,
    glossary: &mut Glossary<'s>,
    item: usize,
) -> Result<(), NoMemory>
    ensures { OnOk result ((text : List ℕ) (items : List Item) → IsTableOf text items declared.now
        → (start : ℕ) → entry_at table.new.entries start
        ≡ option_or (name_at (again_among items item [] (map view_name glossary.old.declared.items)) start)
        (entry_at table.old.entries start)) }
{
    while let Some(name) = glossary.declared.pop() {
        take_in(declared, table, item, &glossary.declared, name)?;
    }
    Ok(())
}

/// Takes in a name, in front of which the item declares these, if it is declared again.
fn take_in<'s>(
    declared: &DeclaredNames<'s>,
    table: &mut KeyedTable<usize, CowSlice<'s, u8>>,
    item: usize,
    front: &[DeclaredName<'s>],
    name: DeclaredName<'s>,
) -> Result<(), NoMemory>
    ensures { OnOk result ((text : List ℕ) (items : List Item) → IsTableOf text items declared.now
        → (start : ℕ) → entry_at table.new.entries start
        ≡ option_or (name_at (at_start (start_again items item (map view_name front.now)
        (view_name name.entry)) (cow_slice_items name.entry.name)) start)
        (entry_at table.old.entries start)) }
{
    match start_again(declared, item, front, &name) {
        Some(start) => note(table, start, name.name),
        None => Ok(()),
    }
}

/// Takes in a name at a place, instead of another that the place has.
fn note<'s>(
    table: &mut KeyedTable<usize, CowSlice<'s, u8>>,
    start: usize,
    name: CowSlice<'s, u8>,
) -> Result<(), NoMemory>
    ensures { OnOk result ((other : ℕ) → entry_at table.new.entries other
        ≡ option_or (if start == other then Some (cow_slice_items name.entry) else None)
        (entry_at table.old.entries other)) }
{
    table.insert(start, name)?;
    Ok(())
}

/// Where the word of a name starts that is declared again, and behind these names of its item.
fn start_again(
    declared: &DeclaredNames,
    item: usize,
    front: &[DeclaredName],
    name: &DeclaredName,
) -> Option<usize>
    ensures { (text : List ℕ) (items : List Item) → IsTableOf text items declared.now
        → result ≡ start_again items item (map view_name front.now) (view_name name.now) }
{
    let here = Declarer {
        item,
        word: name.word,
        place: front.len(),
        kind: name.kind,
        lifted: name.lifted,
    };
    if is_alone(front, name) && is_elsewhere(&here, declared.first_declarer(&name.name)) {
        start_of(declared, &here)
    } else {
        None
    }
}

/// Whether a name is that of an inline type, at a word that declares no name of its own.
fn is_alone(front: &[DeclaredName], name: &DeclaredName) -> bool
    ensures { result ≡ is_alone (map view_name front.now) (view_name name.now) }
{
    name.lifted && !ends_with_own(name.word, front)
}

/// Whether the last of the names is the word's own.
fn ends_with_own(word: usize, names: &[DeclaredName]) -> bool
    ensures { result ≡ ends_with_own word (map view_name names.now) }
{
    match names.last() {
        Some(last) => last.word == word && !last.lifted,
        None => false,
    }
}

/// Whether another word declares a name first.
fn is_elsewhere(here: &Declarer, first: Option<Declarer>) -> bool
    ensures { result ≡ is_elsewhere here.now first }
{
    match first {
        Some(first) => !(first.item == here.item && first.word == here.word),
        None => false,
    }
}

/// Where the word starts that declares a name.
fn start_of(declared: &DeclaredNames, here: &Declarer) -> Option<usize>
    ensures { (text : List ℕ) (items : List Item) → IsTableOf text items declared.now
        → result ≡ start_of items here.now }
{
    let spot = declared.spot(here)?;
    Some(spot.start)
}
