//! The items of a text, each with what it parses to.

ghost use Rattle.std.specs.Prelude.{◌≡◌, length, All, IfOk, None};
ghost use Rattle.x_streams.specs.Counters.{raised};
ghost use Rattle.x_lex.specs.Tiling.{AreTokens};
ghost use Rattle.x_lex.specs.Places.{lexemes};
ghost use Rattle.x_cutting.specs.ItemList.{AreOfText, counts};
ghost use Rattle.x_names.specs.Declarers.{AreShort};
ghost use Rattle.x_compile.specs.KeptView.{AreParsed, entry_definitions, kept_found};

use crate::content::{Content, entry_of};
use std::alloc::Global;
use x_item::{ItemEntry, next_item};
use x_lex::Tokens;
use x_text::{Meter, NoMemory, Source};

/// The items of a text, in order, each with what it parses to. Counts each of them as parsed.
pub fn parse_items(
    alloc: Global,
    tokens: &Tokens,
    source: &Source,
    meter: &mut Meter,
) -> Result<Vec<ItemEntry<Content>>, NoMemory>
    requires { AreTokens source.now tokens.now.list }
    ensures parsed { IfOk result (λ entries. AreParsed (lexemes source.now tokens.now.list) entries.items) }
    ensures unchecked { IfOk result (λ entries. All (λ e. kept_found e.kept ≡ None) entries.items) }
    ensures short { IfOk result (λ entries. AreShort (entry_definitions entries.items)) }
    ensures of_text { IfOk result (λ entries. AreOfText (counts entries.items)) }
    ensures counted { IfOk result (λ entries. meter.new
        ≡ record meter.old { parsed = raised meter.old.parsed (length entries.items) }) }
{
    // A read of the text shows that its bytes are few.
    let _text = source.bytes();
    let mut entries = Vec::new(alloc);
    let mut walk = tokens.iter(source);
    let mut part = Vec::new(alloc);
    let mut whole = true;
    while whole {
        whole = next_item(&mut part, &mut walk)?;
        entries.push(entry_of(alloc, &part, meter)?)?;
    }
    Ok(entries)
}
