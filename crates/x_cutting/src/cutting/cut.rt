//! All items of a text.
ghost use Rattle.std.specs.Prelude.{◌≡◌, All, IfOk, length};
ghost use Rattle.x_lex.specs.Tiling.{AreTokens};
ghost use Rattle.x_lex.specs.Places.{lexemes};
ghost use Rattle.x_cutting.specs.Items.{IsCut};
ghost use Rattle.x_cutting.specs.ItemList.{counts};

use super::cutter::Cutter;
use super::{ItemEntry, Items};
use std::alloc::Global;
use x_lex::Tokens;
use x_text::{NoMemory, Source};

/// The items of the text, with which nothing is kept yet, and with the seat behind the last of them.
/// [`NoMemory`] where memory ran out.
pub fn cut<K: Default + Drop>(
    alloc: Global,
    tokens: &Tokens,
    source: &Source,
) -> Result<Items<K>, NoMemory>
    requires { AreTokens source.now tokens.now.list }
    ensures cut { IfOk result (λ items. IsCut (lexemes source.now tokens.now.list) (counts items.list)) }
    ensures seat { IfOk result (λ items. items.seat ≡ length items.list) }
    ensures blank { IfOk result (λ items. All (λ item. K.is_default item.kept) items.list) }
{
    let mut entries = Vec::new(alloc);
    let mut count = 0;
    let mut cutter = Cutter::new();
    for token in tokens.iter(source) {
        count += 1;
        if cutter.ends(token.kind, token.text) {
            entries.push(ItemEntry::new(count))?;
            count = 0;
        }
    }
    entries.push(ItemEntry::new(count))?;
    Items::from_entries(alloc, entries)
}
