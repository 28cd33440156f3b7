//! What an edit does to the tokens of a text.
ghost use Rattle.std.specs.Prelude.{◌≡◌, ◌+◌, ◌-◌, ◌≤◌, [], length, IfOk, IsOk};
ghost use Rattle.x_text.specs.declared.text.source.TheConstants.{MAX_TEXT};
ghost use Rattle.x_streams.specs.Counters.{raised};
ghost use Rattle.x_text.specs.Edits.{change_of, edited_by, LiesWithin};
ghost use Rattle.x_lex.specs.Tiling.{AreTokens, end_of};
ghost use Rattle.x_lex.specs.Places.{is_line_start};
ghost use Rattle.x_lex.specs.TokenList.{patched, IsOfText};
ghost use Rattle.x_lex.specs.Relex.{IsPatch};

use crate::scan::lex_one;
use crate::tokens::TokenEntry;
use crate::{Patch, Tokens};
use std::alloc::Global;
use x_text::{Edit, Meter, NoMemory, SeqPatch, Source};

/// What the edit, which makes `new` of the text `old`, does to the tokens of `old`: those that end before it
/// stay, then come fresh ones, each of which is counted, up to the first place from which the old ones hold
/// again.
///
/// [`NoMemory`] where memory ran out; an empty text needs none.
pub fn relex(
    alloc: Global,
    tokens: &Tokens,
    old: &Source,
    edit: &Edit,
    new: &Source,
    meter: &mut Meter,
) -> Result<Patch, NoMemory>
    requires tokens { AreTokens old.now tokens.now.list }
    requires within { LiesWithin (change_of old.now edit.now) }
    requires edited { new.now ≡ edited_by (change_of old.now edit.now) }
    ensures patch { IfOk result (λ patch. IsPatch (change_of old.now edit.now) tokens.now.list patch) }
    ensures of_text { IfOk result (λ patch. IsOfText (patched tokens.now.list patch)) }
    ensures behind { IfOk result (λ patch. edit.now.end ≤ end_of tokens.now.list (patch.at + patch.removed)) }
    ensures ticks { IfOk result (λ patch. meter.new.lexed ≡ raised meter.old.lexed (length patch.fresh)) }
    ensures no_fewer { meter.old.lexed ≤ meter.new.lexed }
    ensures no_memory { new.now ≡ [] → IsOk result }
    ensures others { meter.new ≡ record meter.old { lexed = meter.new.lexed } }
{
    relex_bytes(alloc, tokens, old.bytes(), edit, new.bytes(), meter)
}

/// [`relex`] of the bytes of the two texts.
fn relex_bytes(
    alloc: Global,
    tokens: &Tokens,
    old: &[u8],
    edit: &Edit,
    new: &[u8],
    meter: &mut Meter,
) -> Result<Patch, NoMemory>
    requires tokens { AreTokens old.now tokens.now.list }
    requires within { LiesWithin (change_of old.now edit.now) }
    requires edited { new.now ≡ edited_by (change_of old.now edit.now) }
    requires small { length new.now ≤ MAX_TEXT }
    ensures patch { IfOk result (λ patch. IsPatch (change_of old.now edit.now) tokens.now.list patch) }
    ensures behind { IfOk result (λ patch. edit.now.end ≤ end_of tokens.now.list (patch.at + patch.removed)) }
    ensures ticks { IfOk result (λ patch. meter.new.lexed ≡ raised meter.old.lexed (length patch.fresh)) }
    ensures no_fewer { meter.old.lexed ≤ meter.new.lexed }
    ensures no_memory { new.now ≡ [] → IsOk result }
    ensures others { meter.new ≡ record meter.old { lexed = meter.new.lexed } }
{
    // A read of the count shows that it fits its type.
    let _counted = meter.lexed();
    let (kept, start) = tokens.front_before(old.len(), edit.start);
    let shift = edit.start + edit.insert.len();
    let mut fresh = Vec::new(alloc);
    let mut at = start;
    let mut line_start = is_line_start(new, at);
    let mut back = kept;
    let mut back_place = start;
    'lexing: loop {
        let target = edit.end + at.saturating_sub(shift);
        let (index, end) = tokens.advance(back, back_place, target);
        if shift <= at && end == target && is_line_start(old, target) == line_start {
            return Ok(patch(kept, index, start, fresh));
        }
        if at == new.len() {
            return Ok(patch(kept, tokens.len(), start, fresh));
        }
        back = index;
        back_place = end;
        let (kind, next) = lex_one(new, at, line_start, meter);
        fresh.push(TokenEntry::new(kind, next - at))?;
        line_start = new[next - 1] == b'\n';
        at = next;
    }
}

/// The patch that puts fresh tokens, the first of which starts at `start`, in the place of those from index
/// `at` to before `end`.
fn patch(at: usize, end: usize, start: usize, fresh: Vec<TokenEntry>) -> Patch
    requires { at ≤ end }
    ensures { result ≡ record { at = at; removed = end - at; start = start; fresh = fresh.items } }
{
    Patch::new(SeqPatch::new(at, end - at, start, fresh))
}

/// Whether the place is 0 or stands behind a line feed.
fn is_line_start(text: &[u8], at: usize) -> bool
    requires { at ≤ length text.now }
    ensures { result ≡ is_line_start text.now at }
{
    at == 0 || text[at - 1] == b'\n'
}
