//! All tokens of a text.
ghost use Rattle.std.specs.Prelude.{◌≡◌, ◌≤◌, [], length, IfOk, IsOk};
ghost use Rattle.x_streams.specs.Counters.{raised};
ghost use Rattle.x_lex.specs.Tiling.{AreTokens};

use crate::scan::lex_one;
use crate::tokens::{TokenEntry, Tokens};
use std::alloc::Global;
use x_text::{Meter, NoMemory, Source};

/// The tokens of the text, each of which is counted, with the seat behind the last of them. [`NoMemory`]
/// where memory ran out; an empty text needs none.
#[tactic(auto, using(crate::proofs::LexedLemmas::lexed_none))]
pub fn lex(alloc: Global, source: &Source, meter: &mut Meter) -> Result<Tokens, NoMemory>
    ensures tokens { IfOk result (λ tokens. AreTokens source.now tokens.list) }
    ensures seat { IfOk result (λ tokens. tokens.seat ≡ length tokens.list) }
    ensures ticks { IfOk result (λ tokens. meter.new.lexed ≡ raised meter.old.lexed (length tokens.list)) }
    ensures no_fewer { meter.old.lexed ≤ meter.new.lexed }
    ensures no_memory { source.now ≡ [] → IsOk result }
    ensures others { meter.new ≡ record meter.old { lexed = meter.new.lexed } }
{
    // A read of the count shows that it fits its type.
    let _counted = meter.lexed();
    let bytes = source.bytes();
    let mut entries = Vec::new(alloc);
    let mut at = 0;
    let mut line_start = true;
    while at < bytes.len() {
        let (kind, end) = lex_one(bytes, at, line_start, meter);
        entries.push(TokenEntry::new(kind, end - at))?;
        line_start = bytes[end - 1] == b'\n';
        at = end;
    }
    Tokens::from_entries(alloc, entries, bytes.len())
}
