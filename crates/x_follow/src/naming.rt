//! What an edit does to the table of names.

ghost use Rattle.std.specs.Prelude.{◌≡◌, ◌+◌, ◌≤◌, IfOk, List, None, Option, drop, length, map};
ghost use Rattle.std.specs.Prelude.{option_and_then, option_copied, take};
ghost use Rattle.x_text.specs.declared.text.source.TheConstants.{MAX_TEXT};
ghost use Rattle.x_cutting.specs.ItemList.{AreOfText, ItemChange, LiesAmong, counts, patched};
ghost use Rattle.x_cutting.specs.declared.cutting.item_entry.ItemEntry as entries;
ghost use Rattle.x_trees.specs.Tree as definition;
ghost use Rattle.x_trees.specs.View.{tree_at};
ghost use Rattle.x_names.specs.Declarers.{AreShort};
ghost use Rattle.x_uses.specs.Occurrences.{IsUsesOf};
ghost use Rattle.x_follow.specs.Following.{AreUsed, HasRoomForNames, IsNameChange};
ghost use Rattle.x_follow.specs.Lacking.{is_lacking_name};
ghost use Rattle.x_compile.specs.KeptView.{entry_definitions, kept_definition};
ghost use Rattle.x_compile.specs.declared.content.Content as kept;

use std::alloc::Global;
use x_compile::{Content, ItemTable};
use x_item::{Definition, ItemEntry, ItemPatch, Items};
use x_text::NoMemory;
use x_uses::{ItemSplice, Uses};

/// What becomes of the table of names: the names of the items that go, and those of the fresh ones.
#[derive(Drop)]
pub struct NameChange {
    pub place: ItemSplice,
    pub gone: Uses,
    pub fresh: Uses,
}

/// What the patch does to the table of names, where `put` are the definitions of its fresh items, and makes
/// room for it. The table is made where there was none.
pub fn change_names(
    alloc: Global,
    items: &mut ItemTable,
    patch: &ItemPatch<Content>,
    put: &[Option<&Definition>],
) -> Result<NameChange, NoMemory>
    requires put { map tree_at put.now ≡ entry_definitions patch.now.fresh }
    requires among { LiesAmong items.old.entries.list patch.now }
    requires uses { AreUsed items.old.entries.list items.old.uses }
    requires short { AreShort (entry_definitions items.old.entries.list) }
    requires short_fresh { AreShort (entry_definitions patch.now.fresh) }
    ensures entries { items.new.entries ≡ items.old.entries }
    ensures faults { items.new.faults ≡ items.old.faults }
    ensures uses { AreUsed items.old.entries.list items.new.uses }
    ensures change { IfOk result (λ names. IsNameChange items.old.entries.list patch.now names) }
    ensures room { IfOk result (λ names. HasRoomForNames items.new.uses names) }
{
    let hash_key = items.hash_key;
    let gone = Uses::of(
        alloc,
        hash_key,
        &removed_definitions(alloc, &items.entries, patch)?,
    )?;
    let fresh = Uses::of(alloc, hash_key, put)?;
    let mut uses = take_table(alloc, items)?;
    let room = uses.make_room(alloc, &fresh);
    items.uses = Some(uses);
    room?;
    Ok(NameChange {
        place: ItemSplice {
            at: patch.at(),
            removed: patch.removed(),
            added: patch.len(),
        },
        gone,
        fresh,
    })
}

/// Whether an item sees a name that none declares, by the table of names, which is made where there was none.
pub fn lacks(alloc: Global, items: &mut ItemTable, name: &[u8]) -> Result<bool, NoMemory>
    requires uses { AreUsed items.old.entries.list items.old.uses }
    requires short { AreShort (entry_definitions items.old.entries.list) }
    ensures entries { items.new.entries ≡ items.old.entries }
    ensures faults { items.new.faults ≡ items.old.faults }
    ensures uses { AreUsed items.old.entries.list items.new.uses }
    ensures lacks { IfOk result
        (λ lacks. lacks ≡ is_lacking_name (entry_definitions items.old.entries.list) name.now) }
{
    let uses = take_table(alloc, items)?;
    let lacks = is_lacking(&uses, name);
    items.uses = Some(uses);
    Ok(lacks)
}

/// Whether an item sees a name that none declares.
fn is_lacking(uses: &Uses, name: &[u8]) -> bool
    ensures { (definitions : List (Option definition.Definition)) → IsUsesOf definitions uses.now
        → result ≡ is_lacking_name definitions name.now }
{
    uses.first(name).is_none() && !uses.users(name).is_empty()
}

/// Takes the table of names out, or makes it where there was none.
fn take_table(alloc: Global, items: &mut ItemTable) -> Result<Uses, NoMemory>
    requires uses { AreUsed items.old.entries.list items.old.uses }
    requires short { AreShort (entry_definitions items.old.entries.list) }
    ensures entries { items.new.entries ≡ items.old.entries }
    ensures faults { items.new.faults ≡ items.old.faults }
    ensures taken { items.new.uses ≡ None }
    ensures table { IfOk result (IsUsesOf (entry_definitions items.old.entries.list)) }
{
    match items.uses.take() {
        Some(uses) => Ok(uses),
        None => Uses::of(alloc, items.hash_key, &items.definitions(alloc)?),
    }
}

/// The definitions of the items that the patch takes out.
fn removed_definitions<'i>(
    alloc: Global,
    items: &'i Items<Content>,
    patch: &ItemPatch<Content>,
) -> Result<Vec<Option<&'i Definition>>, NoMemory>
    requires { LiesAmong items.now.list patch.now }
    ensures { IfOk result (λ definitions. map tree_at definitions.items
        ≡ take patch.now.removed (drop patch.now.at (entry_definitions items.now.list))) }
{
    // A read of the count shows that it fits its type.
    let _counted = items.len();
    let mut definitions = Vec::with_capacity(alloc, patch.removed())?;
    for index in patch.at()..patch.at() + patch.removed() {
        definitions.push(definition_of(items.get(index)))?;
    }
    Ok(definitions)
}

/// The definitions of the fresh items.
pub fn fresh_definitions(
    alloc: Global,
    patch: &ItemPatch<Content>,
) -> Result<Vec<Option<&Definition>>, NoMemory>
    ensures { IfOk result
        (λ definitions. map tree_at definitions.items ≡ entry_definitions patch.now.fresh) }
{
    let mut definitions = Vec::with_capacity(alloc, patch.len())?;
    for index in 0..patch.len() {
        definitions.push(definition_of(patch.get(index)))?;
    }
    Ok(definitions)
}

/// The definition of an item, if there is one with a definition.
fn definition_of(entry: Option<&ItemEntry<Content>>) -> Option<&Definition>
    ensures { tree_at result ≡ option_and_then (λ e. kept_definition e.kept) (option_copied entry.entry) }
{
    entry?.kept.definition()
}

impl NameChange {
    /// Carries it out in the table, which takes no memory.
    pub fn carry_out(self, uses: &mut Option<Uses>)
        requires { HasRoomForNames uses.old self }
        ensures { (es : List (entries.ItemEntry kept.Content)) (patch : ItemChange kept.Content)
            → LiesAmong es patch → length es ≤ MAX_TEXT + 1 → AreOfText (counts (patched es patch))
            → IsNameChange es patch self → AreUsed es uses.old → AreUsed (patched es patch) uses.new }
    {
        if let Some(uses) = uses {
            uses.replace(self.place, &self.gone, &self.fresh);
        }
    }
}
