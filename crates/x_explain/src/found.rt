//! The faults of a text, each with the place where its token ends.

ghost use Rattle.std.specs.Prelude.{◌≡◌, IfOk, slice_range};
ghost use Rattle.x_compile.specs.Compile.{places_of};
ghost use Rattle.x_session.specs.Session.{Compiles};
ghost use Rattle.x_explain.specs.Found.{AreFound, IsEndOfToken};

use crate::shown::first_of;
use std::alloc::Global;
use x_lex::lex_one;
use x_session::{FaultCode, FaultPlace, Session};
use x_text::{Meter, NoMemory};

/// A fault of a text, and from where to where its token stands.
#[derive(Clone, Copy, Debug)]
pub struct FoundFault {
    /// What is wrong.
    pub code: FaultCode,
    /// Where the token starts, in bytes.
    pub start: usize,
    /// Where it ends.
    pub end: usize,
}

/// Where the token ends that starts at a place; after all tokens that place.
pub fn token_end(text: &[u8], start: usize) -> usize
    ensures { IsEndOfToken text.now start result }
{
    if start >= text.len() {
        return start;
    }
    let line_start = start == 0 || text[start - 1] == b'\n';
    let mut meter = Meter::new();
    let (_, end) = lex_one(text, start, line_start, &mut meter);
    end
}

/// The faults at these places of a text.
///
/// They are listed before their tokens are looked at, and these before anything is said of them: such short
/// steps wait for memory at many places at once, and not for one after the other.
pub fn found_at(
    alloc: Global,
    text: &[u8],
    places: &[FaultPlace],
) -> Result<Vec<FoundFault>, NoMemory>
    ensures { IfOk result (λ found. AreFound text.now places.now found.items) }
{
    let mut found = Vec::with_capacity(alloc, places.len())?;
    for place in places {
        found.push(FoundFault {
            code: place.code,
            start: place.start,
            end: token_end(text, place.start),
        })?;
    }
    Ok(found)
}

/// The bytes of the token between two places.
pub(crate) fn word_at(text: &[u8], start: usize, end: usize) -> &[u8]
    ensures { result.now ≡ slice_range text.now start end }
{
    let from = text.get(start..).unwrap_or(&[]);
    first_of(from, end.saturating_sub(start))
}

/// The places of the faults of a session's text, in their order.
pub fn fault_places(alloc: Global, session: &Session) -> Result<Vec<FaultPlace>, NoMemory>
    ensures { IfOk result
        (λ places. Compiles session.now.known session.now.text (λ items. places.items ≡ places_of items)) }
{
    let mut places = Vec::with_capacity(alloc, session.fault_count())?;
    for place in session.fault_places() {
        places.push(place)?;
    }
    Ok(places)
}
