//! The items of an edited text that are parsed anew.

ghost use Rattle.std.specs.Prelude.{◌≡◌, ◌+◌, ◌<◌, ◌≤◌, All, None, OnOk, Some, drop, length, map, slice_get};
ghost use Rattle.std.specs.Prelude.{take};
ghost use Rattle.x_streams.specs.Counters.{raised};
ghost use Rattle.x_lex.specs.Places.{lexeme, lexemes};
ghost use Rattle.x_lex.specs.Tiling.{AreTokens};
ghost use Rattle.x_lex.specs.TokenList.{LiesAmong, patched};
ghost use Rattle.x_cutting.specs.ItemList.{counts, total};
ghost use Rattle.x_compile.specs.KeptView.{AreAlong, kept_found};

use std::alloc::Global;
use x_compile::{Content, byte_count};
use x_item::ItemPatch;
use x_lex::{Patch, PatchedTokenIter, Token, Tokens};
use x_text::{Meter, NoMemory, Source};

/// Parses the fresh items of a patch, whose tokens are among those that the patch of the tokens will leave,
/// and keeps with each what it parses to. Counts each of them as parsed.
pub fn parse_fresh(
    alloc: Global,
    tokens: &Tokens,
    patch: &Patch,
    text: &Source,
    items: &mut ItemPatch<Content>,
    meter: &mut Meter,
) -> Result<(), NoMemory>
    requires among { LiesAmong tokens.now.list patch.now }
    requires tokens { AreTokens text.now (patched tokens.now.list patch.now) }
    requires within { items.old.start + total (counts items.old.fresh)
        ≤ length (patched tokens.now.list patch.now) }
    ensures counts { counts items.new.fresh ≡ counts items.old.fresh }
    ensures others { items.new ≡ record items.old { fresh = items.new.fresh } }
    ensures along { OnOk result (AreAlong
        (drop items.old.start (lexemes text.now (patched tokens.now.list patch.now))) items.new.fresh) }
    ensures unchecked { OnOk result (All (λ e. kept_found e.kept ≡ None) items.new.fresh) }
    ensures ticks { OnOk result
        (meter.new.parsed ≡ raised meter.old.parsed (length items.old.fresh)) }
    ensures no_others { meter.new ≡ record meter.old { parsed = meter.new.parsed } }
{
    // A read of the count shows that it fits its type.
    let _counted = meter.parsed();
    // And one of the text, that its bytes are few.
    let _text = text.bytes();
    let mut walk = tokens.iter_patched(patch, items.start(), text);
    let mut part = Vec::new(alloc);
    for index in 0..items.len() {
        take_tokens(&mut part, &mut walk, token_count(items, index))?;
        let kept = Content::parsed(alloc, &part, meter)?;
        items.fill(index, byte_count(&part), kept);
    }
    Ok(())
}

/// How many tokens a fresh item has.
fn token_count(items: &ItemPatch<Content>, index: usize) -> usize
    requires { index < length items.now.fresh }
    ensures { slice_get (counts items.now.fresh) index ≡ Some result }
{
    match items.get(index) {
        Some(entry) => entry.tokens as usize,
        None => 0,
    }
}

/// Fills the buffer anew with the next so many tokens of a walk, or with all that it has left where there are
/// fewer.
fn take_tokens<'a>(
    part: &mut Vec<Token<'a>>,
    walk: &mut PatchedTokenIter<'a>,
    count: usize,
) -> Result<(), NoMemory>
    ensures part { OnOk result (map lexeme part.new.items ≡ take count walk.old) }
    ensures walk { OnOk result (walk.new ≡ drop count walk.old) }
{
    part.clear();
    for _taken in 0..count {
        let Some(token) = walk.next() else {
            return Ok(());
        };
        part.push(token)?;
    }
    Ok(())
}
