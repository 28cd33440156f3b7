//! Places of a text with their positions, and what is found from one of them on.

ghost use Rattle.std.specs.Prelude.{◌≡◌, ◌-◌, ◌≤◌, drop, length};
ghost use Rattle.x_text.specs.Limits.{most_text};
ghost use Rattle.x_positions.specs.declared.encoding.Encoding.{Encoding};
ghost use Rattle.x_positions.specs.Positions.{lines_before, offset_of, position_of};
ghost use Rattle.x_positions.specs.Waymarks.{IsAt, IsNotBehind, IsOutsidePair};

use crate::encoding::Encoding;
use crate::places::units_behind;
use crate::positions::{Position, behind, behind_lines, first_line, line_end, place_within};

/// A place of a text, with its position.
#[derive(Clone, Copy, Debug)]
pub(crate) struct Spot {
    pub(crate) at: usize,
    pub(crate) position: Position,
}

/// The start of each text.
pub(crate) const START: Spot = Spot {
    at: 0,
    position: Position {
        line: 0,
        character: 0,
    },
};

/// The place of a position that is not before that of a spot, from there on: past a line's end that end,
/// within a character its start, and past the last line the end of the text.
pub(crate) fn offset_from(encoding: Encoding, text: &[u8], from: Spot, position: Position) -> usize
    requires from { IsAt encoding text.now from.at from.position }
    requires outside { IsOutsidePair text.now from.at }
    requires before { IsNotBehind from.position position }
    ensures place { result ≡ offset_of encoding text.now position }
    ensures within { result ≤ length text.now }
{
    let rest = behind(text, from.at);
    if position.line == from.position.line {
        return from.at + place_within(encoding, rest, position.character - from.position.character);
    }
    let rest = behind_lines(rest, position.line - from.position.line);
    text.len() - rest.len() + place_within(encoding, rest, position.character)
}

/// A spot with the same position that does not stand between a carriage return and its line feed.
pub(crate) fn outside_pair(text: &[u8], spot: Spot) -> Spot
    requires { spot.at ≤ length text.now }
    ensures spot { (e : Encoding) → IsAt e text.now spot.at spot.position
        → IsAt e text.now result.at result.position }
    ensures outside { IsOutsidePair text.now result.at }
    ensures same { result.position ≡ spot.position }
{
    let at = spot.at;
    if at > 0 && at < text.len() && text[at - 1] == b'\r' && text[at] == b'\n' {
        return Spot {
            at: at - 1,
            position: spot.position,
        };
    }
    spot
}

/// The spot of a place, from one before it on.
pub(crate) fn spot_from(encoding: Encoding, text: &[u8], from: Spot, at: usize) -> Spot
    requires small { length text.now ≤ most_text }
    requires from { IsAt encoding text.now from.at from.position }
    requires before { from.at ≤ at }
    requires within { at ≤ length text.now }
    ensures at { result.at ≡ at }
    ensures spot { IsAt encoding text.now at result.position }
{
    Spot {
        at,
        position: position_from(encoding, text, from, at),
    }
}

/// The position of a place, from a spot before it on. Of what stands behind the place one byte is looked at.
pub(crate) fn position_from(encoding: Encoding, text: &[u8], from: Spot, at: usize) -> Position
    requires small { length text.now ≤ most_text }
    requires from { IsAt encoding text.now from.at from.position }
    requires before { from.at ≤ at }
    requires within { at ≤ length text.now }
    ensures { result ≡ position_of encoding text.now at }
{
    let near = text.split_at(text.len().min(at + 1)).0;
    position_in(encoding, near, from, at)
}

/// The position of a place, from a spot before it on.
fn position_in(encoding: Encoding, text: &[u8], from: Spot, at: usize) -> Position
    requires small { length text.now ≤ most_text }
    requires from { IsAt encoding text.now from.at from.position }
    requires before { from.at ≤ at }
    requires within { at ≤ length text.now }
    ensures { result ≡ position_of encoding text.now at }
{
    let start = last_start(text, from, at);
    let line = first_line(behind(text, start.at));
    let bytes = (at - start.at).min(line.len());
    Position {
        line: start.position.line,
        character: start.position.character + units_behind(encoding, line, 0, 0, bytes),
    }
}

/// Where the last line starts that does at a place or before it; the spot before the place from which this
/// goes on, where none starts between them.
fn last_start(text: &[u8], from: Spot, at: usize) -> Spot
    requires few { from.position.line ≤ from.at }
    requires before { from.at ≤ at }
    requires within { at ≤ length text.now }
    ensures spot { (e : Encoding) → IsAt e text.now from.at from.position
        → IsAt e text.now result.at result.position }
    ensures before { result.at ≤ at }
    ensures last { lines_before (drop result.at text.now) (at - result.at) ≡ 0 }
{
    let mut found = from;
    'lines: loop {
        let Some(end) = line_end(behind(text, found.at)) else {
            return found;
        };
        if end > at - found.at {
            return found;
        }
        found = Spot {
            at: found.at + end,
            position: Position {
                line: found.position.line + 1,
                character: 0,
            },
        };
    }
}
