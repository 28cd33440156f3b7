//! The positions of places.

ghost use Rattle.std.specs.Prelude.{◌≡◌, ◌≤◌, ◌-◌, ◌*◌, IfSome, drop, length};
ghost use Rattle.x_text.specs.Limits.{most_text};
ghost use Rattle.x_positions.specs.LineStarts.{IsLineStart};
ghost use Rattle.x_positions.specs.PassedLines.{IsLine};
ghost use Rattle.x_positions.specs.Positions.{first_line, lines_before, position_of, units_before};

use crate::encoding::Encoding;
use crate::positions::{Position, behind, first_line, line_end};
use std::marker::Model;

/// A line of a text.
#[derive(Clone, Copy, Debug)]
pub(crate) struct Line {
    pub(crate) number: usize,
    /// Where it starts.
    pub(crate) start: usize,
    /// How many bytes it has, without its end.
    length: usize,
    /// How far behind its start the next one starts, if there is one.
    next: Option<usize>,
}

impl Line {
    /// The line that starts at a place.
    fn at(text: &[u8], number: usize, start: usize) -> Line
        requires { IsLineStart text.now number start }
        ensures line { IsLine text.now result }
        ensures start { result.start ≡ start }
    {
        let rest = behind(text, start);
        Line {
            number,
            start,
            length: first_line(rest).len(),
            next: line_end(rest),
        }
    }

    /// The line behind it.
    pub(crate) fn next_line(self, text: &[u8]) -> Option<Line>
        requires { IsLine text.now self }
        ensures { IfSome result (λ line. IsLine text.now line) }
    {
        let next = self.next?;
        Some(Line::at(text, self.number + 1, self.start + next))
    }
}

/// The first line of a text.
#[tactic(auto, using(crate::proofs::LineLemmas::first_start))]
pub(crate) fn first(text: &[u8]) -> Line
    ensures line { IsLine text.now result }
    ensures start { result.start ≡ 0 }
{
    Line::at(text, 0, 0)
}

/// The last line that starts at a place or before it, from one that does on.
fn last_line(text: &[u8], from: Line, at: usize) -> Line
    requires from { IsLine text.now from }
    requires before { from.start ≤ at }
    ensures line { IsLine text.now result }
    ensures before { result.start ≤ at }
    ensures last { lines_before (drop result.start text.now) (at - result.start) ≡ 0 }
{
    let mut found = from;
    'lines: loop {
        let Some(next) = found.next else {
            return found;
        };
        if next > at - found.start {
            return found;
        }
        found = Line::at(text, found.number + 1, found.start + next);
    }
}

/// Tells the positions of places of a text. Places that are asked for in order are found in one pass over it,
/// however long its lines are.
#[derive(Debug, Drop)]
pub struct Places<'s> {
    encoding: Encoding,
    text: &'s [u8],
    /// The line of the place that was asked for last.
    line: Line,
    /// How many bytes of the line stand before that place, and how many units they have.
    bytes: usize,
    units: usize,
}

impl<'s> Model for Places<'s> {
    ghost use Rattle.std.specs.Prelude.{◌≡◌, ◌≤◌, length};
    ghost use Rattle.x_text.specs.Limits.{most_text};
    ghost use Rattle.x_positions.specs.Positions.{EncodedText};
    ghost use Rattle.x_positions.specs.PassedLines.{IsLine, HasUnits};

    ghost Value = { EncodedText };

    ghost view = { λ p. record { encoding = p.encoding; text = p.text.now } };

    ghost invariant = { λ p. (length p.text.now ≤ most_text) × IsLine p.text.now p.line
        × HasUnits p.encoding p.text.now p.line p.bytes p.units };
}

impl<'s> Places<'s> {
    /// The places of a text.
    pub fn of(encoding: Encoding, text: &'s [u8]) -> Places<'s>
        requires { length text.now ≤ most_text }
        ensures { result ≡ record { encoding = encoding; text = text.now } }
    {
        Places::from_line(encoding, text, first(text))
    }

    /// The places of a text, of which those of this line and of the ones behind it are found from its start.
    pub(crate) fn from_line(encoding: Encoding, text: &'s [u8], line: Line) -> Places<'s>
        requires small { length text.now ≤ most_text }
        requires line { IsLine text.now line }
        ensures { result ≡ record { encoding = encoding; text = text.now } }
    {
        Places {
            encoding,
            text,
            line,
            bytes: 0,
            units: 0,
        }
    }

    /// The position of a place.
    pub fn position(&mut self, at: usize) -> Position
        ensures position { result ≡ position_of self.old.encoding self.old.text at }
        ensures same { self.new ≡ self.old }
    {
        let from = if at < self.line.start {
            first(self.text)
        } else {
            self.line
        };
        let line = last_line(self.text, from, at);
        let bytes = (at - line.start).min(line.length);
        let units = self.units_in(line, bytes);
        self.line = line;
        self.bytes = bytes;
        self.units = units;
        Position {
            line: line.number,
            character: units,
        }
    }

    /// How many units so many bytes of a line have.
    fn units_in(&self, line: Line, bytes: usize) -> usize
        requires line { IsLine self.now.text line }
        requires bytes { bytes ≤ line.length }
        ensures units { result
            ≡ units_before self.now.encoding (first_line (drop line.start self.now.text)) bytes }
        ensures few { result ≤ 4 * bytes }
    {
        let content = &self.text[line.start..line.start + line.length];
        if line.start == self.line.start && self.bytes <= bytes {
            units_behind(self.encoding, content, self.bytes, self.units, bytes)
        } else {
            units_behind(self.encoding, content, 0, 0, bytes)
        }
    }
}

/// How many units stand in a line before a place of it, by those before an earlier one.
pub(crate) fn units_behind(
    encoding: Encoding,
    line: &[u8],
    from: usize,
    units: usize,
    to: usize,
) -> usize
    requires line { length line.now ≤ most_text }
    requires from { from ≤ to }
    requires to { to ≤ length line.now }
    requires units { units ≡ units_before encoding line.now from }
    requires few { units ≤ 4 * from }
    ensures units { result ≡ units_before encoding line.now to }
    ensures few { result ≤ 4 * to }
{
    let mut units = units;
    for byte in &line[from..to] {
        units += encoding.unit(*byte);
    }
    units
}
