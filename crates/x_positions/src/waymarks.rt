//! Places of a text that are kept with their positions, so that others are found near them.

ghost use Rattle.std.specs.Prelude.{◌≡◌, ◌≤◌, ◌↔◌, ◌*◌, ℕ, All, IfOk, IsTrue, List, length};
ghost use Rattle.x_text.specs.Limits.{most_text};
ghost use Rattle.x_positions.specs.Positions.{offset_of, position_of};
ghost use Rattle.x_positions.specs.Waymarks.{AreWaymarks, IsAt, IsLeft, IsNotBehind, IsWaymark};

use crate::encoding::Encoding;
use crate::marking::{kept_behind, last_before, marked, marked_behind};
use crate::positions::Position;
use crate::range::Range;
use crate::spots::{START, Spot, offset_from, outside_pair, position_from, spot_from};
use std::alloc::{AllocError, Global};
use x_text::Edit;

/// A place of a text that is kept with its position.
#[derive(Clone, Copy, Debug)]
pub struct Waymark {
    pub(crate) at: u32,
    line: u32,
    character: u32,
}

/// Places of a text that are kept with their positions: some a few bytes apart, and those of faults that were
/// published.
#[derive(Debug, Drop)]
pub struct Waymarks {
    /// How characters are counted.
    pub encoding: Encoding,
    list: Vec<Waymark>,
    /// Where faults stand that were published last, so that those which stay are found at once.
    faults: Vec<Waymark>,
}

impl Waymark {
    /// The mark of a spot.
    pub(crate) fn of(spot: Spot) -> Waymark
        requires at { spot.at ≤ most_text }
        requires line { spot.position.line ≤ most_text }
        requires character { spot.position.character ≤ 4 * most_text }
        ensures at { result.at ≡ spot.at }
        ensures line { result.line ≡ spot.position.line }
        ensures character { result.character ≡ spot.position.character }
    {
        Waymark {
            at: spot.at as u32,
            line: spot.position.line as u32,
            character: spot.position.character as u32,
        }
    }

    /// The spot that is marked.
    pub(crate) fn spot(self) -> Spot
        ensures at { result.at ≡ self.at }
        ensures line { result.position.line ≡ self.line }
        ensures character { result.position.character ≡ self.character }
    {
        Spot {
            at: self.at as usize,
            position: Position {
                line: self.line as usize,
                character: self.character as usize,
            },
        }
    }
}

impl Waymarks {
    /// The waymarks of a text.
    ///
    /// # Errors
    ///
    /// [`AllocError`] where the list of them could not grow.
    pub fn of(alloc: Global, encoding: Encoding, text: &[u8]) -> Result<Waymarks, AllocError>
        requires { length text.now ≤ most_text }
        ensures marks { IfOk result (AreWaymarks text.now) }
        ensures encoding { IfOk result (λ marks. marks.encoding ≡ encoding) }
    {
        let list = marked(alloc, encoding, text)?;
        Ok(Waymarks {
            encoding,
            list,
            faults: Vec::new(alloc),
        })
    }

    /// The position of a place of the text.
    pub fn position(&self, text: &[u8], at: usize) -> Position
        requires { AreWaymarks text.now self.now }
        ensures { result ≡ position_of self.now.encoding text.now at }
    {
        self.spot(text, at).position
    }

    /// The spot of a place of the text, or of its end where the place is behind that.
    fn spot(&self, text: &[u8], at: usize) -> Spot
        requires { AreWaymarks text.now self.now }
        ensures spot { IsAt self.now.encoding text.now result.at result.position }
        ensures position { result.position ≡ position_of self.now.encoding text.now at }
        ensures before { result.at ≤ at }
    {
        let at = at.min(text.len());
        let found = last_before(&self.faults, at);
        if found.at == at {
            return found;
        }
        spot_from(self.encoding, text, last_before(&self.list, at), at)
    }

    /// The positions of two places of the text. That of the second is found from the first on.
    pub fn range(&self, text: &[u8], start: usize, end: usize) -> Range
        requires { AreWaymarks text.now self.now }
        ensures start { result.start ≡ position_of self.now.encoding text.now start }
        ensures end { result.end ≡ position_of self.now.encoding text.now end }
    {
        let first = self.spot(text, start);
        if end < start {
            return Range {
                start: first.position,
                end: self.position(text, end),
            };
        }
        Range {
            start: first.position,
            end: position_from(self.encoding, text, first, end.min(text.len())),
        }
    }

    /// The place of a position: past a line's end that end, within a character its start, and past the last
    /// line the end of the text.
    pub fn offset(&self, text: &[u8], position: Position) -> usize
        requires { AreWaymarks text.now self.now }
        ensures place { result ≡ offset_of self.now.encoding text.now position }
        ensures within { result ≤ length text.now }
    {
        let spot = outside_pair(text, self.spot_not_behind(position));
        offset_from(self.encoding, text, spot, position)
    }

    /// Keeps the marks of faults that are published now, and no others.
    pub fn keep_faults(&mut self, faults: Vec<Waymark>)
        ensures marks { (text : List ℕ) → AreWaymarks text self.old
            → All (IsWaymark self.old.encoding text) faults.items → AreWaymarks text self.new }
        ensures encoding { self.new.encoding ≡ self.old.encoding }
    {
        self.faults = faults;
    }

    /// Follows an edit that leaves this text. Where memory runs out no place is kept, until the next edit.
    pub fn follow(&mut self, alloc: Global, text: &[u8], edit: &Edit)
        requires small { length text.now ≤ most_text }
        requires left { IsLeft self.old.encoding self.old.list.items edit.now text.now }
        requires faults { IsLeft self.old.encoding self.old.faults.items edit.now text.now }
        ensures marks { AreWaymarks text.now self.new }
        ensures encoding { self.new.encoding ≡ self.old.encoding }
    {
        self.list = match marked_behind(alloc, self.encoding, &self.list, text, edit) {
            Ok(list) => list,
            Err(AllocError) => Vec::new(alloc),
        };
        self.faults = kept_behind(
            alloc,
            self.encoding,
            &self.faults,
            text,
            edit,
            &self.list,
        ).unwrap_or(Vec::new(alloc));
    }

    /// The last spot that is marked whose position is not behind this one; else the start of the text.
    fn spot_not_behind(&self, position: Position) -> Spot
        ensures spot { (text : List ℕ) → AreWaymarks text self.now
            → IsAt self.now.encoding text result.at result.position }
        ensures before { IsNotBehind result.position position }
    {
        let count = self
            .list
            .partition_point(|mark| is_not_behind(*mark, position));
        match count.checked_sub(1) {
            Some(last) if last < self.list.len() && is_not_behind(self.list[last], position) => {
                self.list[last].spot()
            }
            _ => START,
        }
    }
}

/// Whether a mark's position is not behind this one.
fn is_not_behind(mark: Waymark, position: Position) -> bool
    ensures { IsTrue result ↔ IsNotBehind (record { line = mark.line; character = mark.character }) position }
{
    let line = mark.line as usize;
    line < position.line || (line == position.line && mark.character as usize <= position.character)
}
