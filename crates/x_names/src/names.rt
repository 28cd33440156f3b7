//! The first declarer of each name.
ghost use Rattle.std.specs.Prelude.{◌≡◌, ℕ, List, map, IfOk, OnOk, Some, None, if◌then◌else◌};
ghost use Rattle.std.specs.Cow.{cow_slice_items};
ghost use Rattle.std.specs.Str.{bytes_eq};
ghost use Rattle.x_trees.specs.View.{view_definition};
ghost use Rattle.x_trees.specs.Names.{declared};
ghost use Rattle.x_trees.specs.Spell.{IsShort};
ghost use Rattle.x_names.specs.Declarers.{AreShort, is_beforehand, FirstIs, first_from};
ghost use Rattle.std.specs.Option.{option_or};
ghost use Rattle.x_names.specs.Declarers.{place_of_name};
ghost use Rattle.x_names.specs.DeclarerTable.{entry_in, first_in};
ghost use Rattle.x_trees.specs.View.{tree_at};

use indexmap::IndexMap;
use std::alloc::Global;
use std::borrow::CowSlice;
use std::hash::{DefaultHasher, Hasher};
use std::marker::Model;
use x_hash::{HashKey, KeyedTable};
use x_text::NoMemory;
use x_trees::{Definition, Glossary, NameKind};

/// Where a name is declared, and as what.
#[derive(Clone, Copy, Debug, PartialEq, Eq)]
pub struct Declarer {
    /// The item, counted from 0.
    pub item: usize,
    /// The word that declares it, counted from 0 among the words of the item.
    pub word: usize,
    /// Its place among the names that the item declares, counted from 0.
    pub place: usize,
    /// What it is declared as.
    pub kind: NameKind,
    /// Whether it is the name of an inline type.
    pub lifted: bool,
}

/// The table of the names that the items of a text declare. It is seen as the list of the names with their
/// first declarers, without those that were declared beforehand.
#[derive(Drop)]
pub struct Names<'d> {
    /// A name lies in the definition that declares it first, but for that of an inline type.
    table: KeyedTable<CowSlice<'d, u8>, Declarer>,
}

impl<'d> Model for Names<'d> {
    ghost use Rattle.std.specs.Prelude.{ℕ, List};
    ghost use Rattle.x_names.specs.DeclarerTable.{names_in};
    ghost use Rattle.x_names.specs.declared.names.Declarer.{Declarer};

    ghost Value = { List (List ℕ × Declarer) };

    ghost view = { λ names. names_in names.table.entries };
}

impl<'d> Names<'d> {
    /// The table of the items' definitions; an item without one declares nothing. It takes time in proportion
    /// to the definitions, whatever their names are: it hashes by a key that is made of all of these.
    ///
    /// # Errors
    ///
    /// [`NoMemory`] where the table, or a name in it, could not grow.
    pub fn of(alloc: Global, definitions: &[Option<&'d Definition>]) -> Result<Names<'d>, NoMemory>
        ensures { IfOk result (λ names. AreShort (map tree_at definitions.now)
            → (name : List ℕ) → FirstIs (map tree_at definitions.now) name (first_in names name)) }
    {
        Names::keyed(alloc, key_of_names(alloc, definitions)?, definitions)
    }

    /// As [`Names::of`], by a key that whoever chose the names did not know.
    ///
    /// # Errors
    ///
    /// [`NoMemory`] where the table, or a name in it, could not grow.
    pub fn keyed(
        alloc: Global,
        key: HashKey,
        definitions: &[Option<&'d Definition>],
    ) -> Result<Names<'d>, NoMemory>
        ensures { IfOk result (λ names. AreShort (map tree_at definitions.now)
            → (name : List ℕ) → FirstIs (map tree_at definitions.now) name (first_in names name)) }
    {
        Ok(Names {
            table: table_of(alloc, key, definitions)?,
        })
    }

    /// What the table hashes by.
    pub fn hash_key(&self) -> HashKey {
        *self.table.hasher()
    }

    /// The first declarer of the name (RFC 4506, section 6.4). A name that was declared beforehand has none:
    /// `TRUE` and `FALSE`.
    pub fn first(&self, name: &[u8]) -> Option<Declarer>
        ensures { result ≡ first_in self.now name.now }
    {
        if is_beforehand(name) {
            None
        } else {
            entry(&self.table, name)
        }
    }

    /// As [`Names::first`], of a name that stands in this place among all that the items declare. It is quick
    /// where each name so far is declared once, and right for any place.
    pub fn first_at(&self, place: usize, name: &[u8]) -> Option<Declarer>
        ensures { result ≡ first_in self.now name.now }
    {
        if is_beforehand(name) {
            None
        } else {
            entry_near(&self.table, place, name)
        }
    }
}

/// A key that is made of all names that the definitions declare.
fn key_of_names(alloc: Global, definitions: &[Option<&Definition>]) -> Result<HashKey, NoMemory> {
    let mut glossary = Glossary::new(alloc);
    let mut hasher = DefaultHasher::new();
    for definition in definitions.iter().flatten() {
        glossary.read(alloc, definition)?;
        for declared in &glossary.declared {
            hasher.write(&declared.name);
        }
    }
    Ok(HashKey::of_hasher(hasher))
}

/// The table of the items' definitions, also of names that were declared beforehand. It is made from the last
/// item to the first, so that the first declarer of a name is what it is left with.
fn table_of<'d>(
    alloc: Global,
    key: HashKey,
    definitions: &[Option<&'d Definition>],
) -> Result<KeyedTable<CowSlice<'d, u8>, Declarer>, NoMemory>
    ensures { IfOk result (λ table. AreShort (map tree_at definitions.now)
        → (name : List ℕ) → entry_in table.entries name ≡ first_from 0 (map tree_at definitions.now) name) }
{
    let mut table = IndexMap::with_capacity_and_hasher(alloc, definition_count(definitions), key)?;
    let mut glossary = Glossary::new(alloc);
    for item in (0..definitions.len()).rev() {
        if let Some(definition) = definitions[item] {
            add(alloc, &mut table, &mut glossary, item, definition)?;
        }
    }
    Ok(table)
}

/// How many items have a definition. A text may be items without one, and a table takes memory for its room.
fn definition_count(definitions: &[Option<&Definition>]) -> usize {
    let mut count: usize = 0;
    for definition in definitions {
        if definition.is_some() {
            count = count.saturating_add(1);
        }
    }
    count
}

/// What the table has for the name.
fn entry(table: &KeyedTable<CowSlice<u8>, Declarer>, name: &[u8]) -> Option<Declarer>
    ensures { result ≡ entry_in table.now.entries name.now }
{
    table.get(name).copied()
}

/// What the table has for the name, which is tried first at the entry where it stands if each name is
/// declared once: the last name was put in first.
fn entry_near(
    table: &KeyedTable<CowSlice<u8>, Declarer>,
    place: usize,
    name: &[u8],
) -> Option<Declarer>
    ensures { result ≡ entry_in table.now.entries name.now }
{
    let index = table.len().saturating_sub(place).saturating_sub(1);
    match table.get_index(index) {
        Some((key, declarer)) if name == key.as_slice() => Some(*declarer),
        _ => entry(table, name),
    }
}

/// Makes room for so many names where the table has fewer yet, so that a large item does not make it grow
/// again and again.
fn reserve_names(
    table: &mut KeyedTable<CowSlice<u8>, Declarer>,
    count: usize,
) -> Result<(), NoMemory>
    ensures { table.new.entries ≡ table.old.entries }
{
    if table.len() < count {
        table.reserve(count)?;
    }
    Ok(())
}

/// Takes in the names that an item declares, in place of those that later items declare. They are listed in
/// memory that is used again.
fn add<'d>(
    alloc: Global,
    table: &mut KeyedTable<CowSlice<'d, u8>, Declarer>,
    glossary: &mut Glossary<'d>,
    item: usize,
    definition: &'d Definition,
) -> Result<(), NoMemory>
    ensures { OnOk result (IsShort (view_definition definition.now)
        → (name : List ℕ) → entry_in table.new.entries name
        ≡ option_or (place_of_name item 0 name (declared (view_definition definition.now)))
        (entry_in table.old.entries name)) }
{
    glossary.read(alloc, definition)?;
    reserve_names(table, glossary.declared.len())?;
    while let Some(declared) = glossary.declared.pop() {
        let declarer = Declarer {
            item,
            word: declared.word,
            place: glossary.declared.as_slice().len(),
            kind: declared.kind,
            lifted: declared.lifted,
        };
        note(table, declared.name, declarer)?;
    }
    Ok(())
}

/// Takes in a name with its declarer, in place of another that the name has.
fn note<'d>(
    table: &mut KeyedTable<CowSlice<'d, u8>, Declarer>,
    name: CowSlice<'d, u8>,
    declarer: Declarer,
) -> Result<(), NoMemory>
    ensures { OnOk result ((other : List ℕ) → entry_in table.new.entries other
        ≡ option_or (if bytes_eq other (cow_slice_items name.entry) then Some declarer else None)
        (entry_in table.old.entries other)) }
{
    table.insert(name, declarer)?;
    Ok(())
}

/// Whether the name is `TRUE` or `FALSE`, a constant that no item declares (RFC 4506, section 4.4).
pub fn is_beforehand(name: &[u8]) -> bool
    ensures { result ≡ is_beforehand name.now }
{
    matches!(name, b"TRUE" | b"FALSE")
}
