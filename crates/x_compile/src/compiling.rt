//! What is found of a text and kept with its items, and compiling one from scratch.

ghost use Rattle.std.specs.Prelude.{◌≡◌, IfOk, length, map};
ghost use Rattle.x_compile.specs.KeptText.{IsKept};

use crate::checking::{Checks, check_all};
use crate::content::Content;
use crate::item_table::ItemTable;
use crate::keeping::keep_results;
use crate::known::KnownDefinitions;
use crate::parsing::parse_items;
use std::alloc::Global;
use x_hash::HashKey;
use x_item::ItemEntry;
use x_lex::{Tokens, lex};
use x_text::{Meter, NoMemory, Source};

/// What is kept of compiling a text.
#[derive(Drop)]
pub struct Compilation {
    pub tokens: Tokens,
    pub items: ItemTable,
}

/// Compiles a text from scratch, over tables that hash by the key, where `known` is known before it. Tokens
/// and items have their seats behind the last of them.
pub fn compile(
    alloc: Global,
    hash_key: HashKey,
    known: &KnownDefinitions,
    source: &Source,
    meter: &mut Meter,
) -> Result<Compilation, NoMemory>
    ensures kept { IfOk result
        (λ c. IsKept known.now source.now c.tokens.list c.items.entries.list c.items.faults c.items.uses) }
    ensures token_seat { IfOk result (λ c. c.tokens.seat ≡ length c.tokens.list) }
    ensures item_seat { IfOk result (λ c. c.items.entries.seat ≡ length c.items.entries.list) }
{
    let tokens = lex(alloc, source, meter)?;
    let mut entries = parse_items(alloc, &tokens, source, meter)?;
    let Checks { results, faults } = check_all(
        alloc,
        hash_key,
        known,
        &kept_of(alloc, &entries)?,
        meter,
    )?;
    keep_results(&mut entries, results);
    let items = ItemTable::of(alloc, hash_key, entries, faults)?;
    Ok(Compilation { tokens, items })
}

/// What is kept with each item.
fn kept_of(alloc: Global, entries: &[ItemEntry<Content>]) -> Result<Vec<&Content>, NoMemory>
    ensures { IfOk result (λ items. map (λ k. k.now) items.items ≡ map (λ e. e.kept) entries.now) }
{
    let mut items = Vec::with_capacity(alloc, entries.len())?;
    for entry in entries {
        items.push(&entry.kept)?;
    }
    Ok(items)
}
