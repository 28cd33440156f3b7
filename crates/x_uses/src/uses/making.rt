//! How a table of uses is made.
ghost use Rattle.std.specs.Prelude.{◌≡◌, ℕ, List, map, None, Some, OnOk, OnErr, IfOk, if◌then◌else◌};
ghost use Rattle.std.specs.List.{list_any};
ghost use Rattle.std.specs.Cow.{cow_slice_items};
ghost use Rattle.std.specs.Str.{bytes_eq};
ghost use Rattle.x_trees.specs.View.{view_definition};
ghost use Rattle.x_trees.specs.Collected.{view_name};
ghost use Rattle.x_trees.specs.View.{tree_at};
ghost use Rattle.x_trees.specs.Spell.{IsShort};
ghost use Rattle.x_names.specs.Declarers.{AreShort, place_of_name, declarer_in};
ghost use Rattle.x_uses.specs.Occurrences.{declarer_of, declarers_at, users_at, declarers_of, users_of, sees};
ghost use Rattle.x_uses.specs.Slots.{slot_at, Changes, HasSameSlots, Notes, IsShortItem};

use super::slot::{CompactDeclarer, Slot};
use super::table::Table;
use indexmap::IndexMap;
use std::alloc::Global;
use x_hash::HashKey;
use x_text::NoMemory;
use x_trees::{DeclaredName, Definition, Glossary, Mention};

/// Gives a slot to a name that has none.
pub fn insert_slot(
    alloc: Global,
    table: &mut Table,
    name: &[u8],
    slot: Slot,
) -> Result<(), NoMemory>
    ensures inserted { OnOk result (Changes table.old.entries table.new.entries name.now (λ _. Some slot)) }
    ensures err { OnErr result (HasSameSlots table.old.entries table.new.entries) }
{
    let key = Vec::from_slice(alloc, name)?;
    table.insert(key, slot)?;
    Ok(())
}

/// Takes in a user of the name.
fn note_user(alloc: Global, table: &mut Table, name: &[u8], item: u32) -> Result<(), NoMemory>
    ensures { OnOk result (Notes table.old.entries table.new.entries
        (λ _. None) (λ other. bytes_eq other name.now) item) }
{
    if let Some(slot) = table.get_mut(name) {
        return slot.note_user(item);
    }
    let mut slot = Slot::new(alloc);
    slot.note_user(item)?;
    insert_slot(alloc, table, name, slot)
}

/// Takes in a declarer of the name, whose item is a user as well.
fn note_declarer(
    alloc: Global,
    table: &mut Table,
    name: &[u8],
    declarer: CompactDeclarer,
) -> Result<(), NoMemory>
    ensures { OnOk result (Notes table.old.entries table.new.entries
        (λ other. if bytes_eq other name.now then Some (declarer_of declarer) else None)
        (λ other. bytes_eq other name.now) declarer.item) }
{
    if let Some(slot) = table.get_mut(name) {
        return slot.note_declarer(declarer);
    }
    let mut slot = Slot::new(alloc);
    slot.note_declarer(declarer)?;
    insert_slot(alloc, table, name, slot)
}

/// Takes in the names that an item declares.
fn add_declared(
    alloc: Global,
    table: &mut Table,
    item: u32,
    declared: &[DeclaredName],
) -> Result<(), NoMemory>
    ensures { OnOk result (Notes table.old.entries table.new.entries
        (λ name. place_of_name item 0 name (map view_name declared.now))
        (λ name. list_any (bytes_eq name) (map (λ d. cow_slice_items d.name) declared.now)) item) }
{
    for place in 0..declared.len() {
        let name = &declared[place];
        let declarer = CompactDeclarer::of(item, place, name)?;
        note_declarer(alloc, table, &name.name, declarer)?;
    }
    Ok(())
}

/// Takes in the names that an item mentions.
fn add_mentioned(
    alloc: Global,
    table: &mut Table,
    item: u32,
    mentioned: &[Mention],
) -> Result<(), NoMemory>
    ensures { OnOk result (Notes table.old.entries table.new.entries (λ _. None)
        (λ name. list_any (bytes_eq name) (map (λ m. m.name.now) mentioned.now)) item) }
{
    for mention in mentioned {
        note_user(alloc, table, mention.name, item)?;
    }
    Ok(())
}

/// Makes room for so many names where the table has fewer yet, so that a large item does not make it grow
/// again and again.
fn reserve_names(table: &mut Table, count: usize) -> Result<(), NoMemory>
    ensures { table.new.entries ≡ table.old.entries }
{
    if table.len() < count {
        table.reserve(count)?;
    }
    Ok(())
}

/// Takes in the names that an item declares or mentions.
fn add<'d>(
    alloc: Global,
    table: &mut Table,
    glossary: &mut Glossary<'d>,
    item: u32,
    definition: &'d Definition,
) -> Result<(), NoMemory>
    ensures { OnOk result (IsShort (view_definition definition.now)
        → Notes table.old.entries table.new.entries
        (λ name. declarer_in item name (Some (view_definition definition.now)))
        (sees (Some (view_definition definition.now))) item) }
{
    glossary.read(alloc, definition)?;
    reserve_names(table, glossary.declared.len())?;
    add_declared(alloc, table, item, &glossary.declared)?;
    add_mentioned(alloc, table, item, &glossary.mentioned)
}

/// The same of an item that may have no definition.
fn add_item<'d>(
    alloc: Global,
    table: &mut Table,
    glossary: &mut Glossary<'d>,
    item: u32,
    definition: Option<&'d Definition>,
) -> Result<(), NoMemory>
    ensures { OnOk result (IsShortItem (tree_at definition.entry)
        → Notes table.old.entries table.new.entries
        (λ name. declarer_in item name (tree_at definition.entry)) (sees (tree_at definition.entry)) item) }
{
    match definition {
        Some(definition) => add(alloc, table, glossary, item, definition),
        None => Ok(()),
    }
}

/// The table of the items' definitions, which hashes by the key.
pub fn table_of(
    alloc: Global,
    hash_key: HashKey,
    definitions: &[Option<&Definition>],
) -> Result<Table, NoMemory>
    ensures declarers { IfOk result (λ table. AreShort (map tree_at definitions.now)
        → (name : List ℕ) → declarers_at (slot_at table.entries name)
        ≡ declarers_of 0 (map tree_at definitions.now) name) }
    ensures users { IfOk result (λ table. AreShort (map tree_at definitions.now)
        → (name : List ℕ) → users_at (slot_at table.entries name)
        ≡ users_of 0 (map tree_at definitions.now) name) }
{
    let mut table = IndexMap::with_hasher(alloc, hash_key);
    let mut glossary = Glossary::new(alloc);
    for index in 0..definitions.len() {
        let Ok(item) = u32::try_from(index) else {
            return Err(NoMemory);
        };
        add_item(alloc, &mut table, &mut glossary, item, definitions[index])?;
    }
    Ok(table)
}
