//! How places of a text are marked, and how marks follow an edit.

ghost use Rattle.std.specs.Prelude.{◌≡◌, ◌≤◌, ◌<◌, ℕ, All, IfOk, IfSome, OnOk, List, length};
ghost use Rattle.x_text.specs.Limits.{most_text};
ghost use Rattle.x_positions.specs.declared.encoding.Encoding.{Encoding};
ghost use Rattle.x_positions.specs.Positions.{position_of};
ghost use Rattle.x_positions.specs.Waymarks.{HasMoved, IsAt, IsLeft, IsWaymark};

use crate::encoding::Encoding;
use crate::positions::Position;
use crate::spots::{START, Spot, spot_from};
use crate::waymarks::Waymark;
use std::alloc::{AllocError, Global};
use x_text::Edit;

/// How many bytes stand between two marks.
const APART: usize = 256;

/// So many bytes from a mark no other one is made.
const NEAR: usize = APART / 4;

/// Marks places of a text, one behind another.
#[derive(Drop)]
pub struct Marker<'t> {
    /// How characters are counted.
    pub encoding: Encoding,
    /// The text.
    pub text: &'t [u8],
    /// The marks, one behind another.
    pub list: Vec<Waymark>,
    /// The spot from which this goes on.
    last: Spot,
    ghost small: { length text.now ≤ most_text },
    ghost marked: { All (IsWaymark encoding text.now) list.items },
    ghost passed: { IsAt encoding text.now last.at last.position },
}

/// Marks of a text.
pub(crate) fn marked(
    alloc: Global,
    encoding: Encoding,
    text: &[u8],
) -> Result<Vec<Waymark>, AllocError>
    requires { length text.now ≤ most_text }
    ensures { IfOk result (λ list. All (IsWaymark encoding text.now) list.items) }
{
    let mut marker = Marker::at_start(alloc, encoding, text);
    marker.mark_until(text.len())?;
    Ok(marker.list)
}

/// Marks of the text that an edit leaves, by those of the text before. What stands behind the edit is not
/// gone over again.
pub(crate) fn marked_behind(
    alloc: Global,
    encoding: Encoding,
    marks: &[Waymark],
    text: &[u8],
    edit: &Edit,
) -> Result<Vec<Waymark>, AllocError>
    requires small { length text.now ≤ most_text }
    requires left { IsLeft encoding marks.now edit.now text.now }
    ensures { IfOk result (λ list. All (IsWaymark encoding text.now) list.items) }
{
    let mut marker = Marker::at_start(alloc, encoding, text);
    marker.keep_before(marks, edit.start)?;
    let inserted = edit.start + edit.insert.len();
    let least = edit.end + (marker.last.at + NEAR).saturating_sub(inserted);
    match marks_from(marks, least) {
        Some((from, rest)) => {
            marker.mark_until(inserted + (from.at - edit.end))?;
            marker.mark_moved(rest, from)?;
        }
        None => marker.mark_until(text.len())?,
    }
    Ok(marker.list)
}

/// What is left of marks once an edit left this text: those before the edit, and what those behind it have
/// become. Where the first of these stands is found by other marks of the text.
pub(crate) fn kept_behind(
    alloc: Global,
    encoding: Encoding,
    marks: &[Waymark],
    text: &[u8],
    edit: &Edit,
    others: &[Waymark],
) -> Result<Vec<Waymark>, AllocError>
    requires small { length text.now ≤ most_text }
    requires left { IsLeft encoding marks.now edit.now text.now }
    requires others { All (IsWaymark encoding text.now) others.now }
    ensures { IfOk result (λ list. All (IsWaymark encoding text.now) list.items) }
{
    let mut marker = Marker::at_start(alloc, encoding, text);
    marker.keep_before(marks, edit.start)?;
    if let Some((from, rest)) = marks_from(marks, edit.end) {
        let at = edit.start + edit.insert.len() + (from.at - edit.end);
        marker.last = spot_from(encoding, text, last_before(others, at), at);
        marker.mark_moved(rest, from)?;
    }
    Ok(marker.list)
}

/// The last spot that is marked at a place or before it; else the start of the text.
pub(crate) fn last_before(marks: &[Waymark], at: usize) -> Spot
    ensures spot { (e : Encoding) → (text : List ℕ) → All (IsWaymark e text) marks.now
        → IsAt e text result.at result.position }
    ensures before { result.at ≤ at }
{
    let count = marks.partition_point(|mark| mark.at as usize <= at);
    match count.checked_sub(1) {
        Some(last) if last < marks.len() && marks[last].at as usize <= at => marks[last].spot(),
        _ => START,
    }
}

/// The spot of the first mark at a place or behind it, with the marks from that one on.
fn marks_from(marks: &[Waymark], at: usize) -> Option<(Spot, &[Waymark])>
    ensures { IfSome result (λ found. (at ≤ found.0.at) × ((e : Encoding) → (text : List ℕ)
        → All (IsWaymark e text) marks.now → IsAt e text found.0.at found.0.position
        × All (IsWaymark e text) found.1.now)) }
{
    let count = marks.partition_point(|mark| (mark.at as usize) < at);
    let rest = marks.split_at(count.min(marks.len())).1;
    match rest {
        [] => None,
        [first, ..] => {
            let spot = first.spot();
            if spot.at < at {
                None
            } else {
                Some((spot, rest))
            }
        }
    }
}

impl<'t> Marker<'t> {
    /// A marker at the start of a text.
    pub fn at_start(alloc: Global, encoding: Encoding, text: &'t [u8]) -> Marker<'t>
        requires { length text.now ≤ most_text }
        ensures text { result.text.now ≡ text.now }
        ensures encoding { result.encoding ≡ encoding }
        ensures start { result.last.at ≡ 0 }
    {
        Marker {
            encoding,
            text,
            list: Vec::new(alloc),
            last: START,
        }
    }

    /// Marks a place that has this position, if it is one of the text.
    pub fn mark_place(&mut self, at: usize, position: Position) -> Result<(), AllocError>
        requires { position ≡ position_of self.old.encoding self.old.text.now at }
        ensures text { self.new.text.now ≡ self.old.text.now }
        ensures encoding { self.new.encoding ≡ self.old.encoding }
    {
        if at > self.text.len() {
            return Ok(());
        }
        self.mark(Spot { at, position })
    }

    /// Marks a spot, from which this goes on.
    fn mark(&mut self, spot: Spot) -> Result<(), AllocError>
        requires { IsAt self.old.encoding self.old.text.now spot.at spot.position }
        ensures last { OnOk result (self.new.last ≡ spot) }
        ensures text { self.new.text.now ≡ self.old.text.now }
        ensures encoding { self.new.encoding ≡ self.old.encoding }
    {
        self.list.push(Waymark::of(spot))?;
        self.last = spot;
        Ok(())
    }

    /// Keeps marks of which those before a place are marks of this text, up to the first that is not.
    fn keep_before(&mut self, marks: &[Waymark], place: usize) -> Result<(), AllocError>
        requires marks { All (λ mark. mark.at < place
            → IsWaymark self.old.encoding self.old.text.now mark) marks.now }
        requires before { self.old.last.at ≤ place }
        ensures before { OnOk result (self.new.last.at ≤ place) }
        ensures text { self.new.text.now ≡ self.old.text.now }
        ensures encoding { self.new.encoding ≡ self.old.encoding }
    {
        for mark in marks {
            let spot = mark.spot();
            if spot.at >= place {
                return Ok(());
            }
            self.mark(spot)?;
        }
        Ok(())
    }

    /// Marks places up to this one, from which this goes on.
    fn mark_until(&mut self, at: usize) -> Result<(), AllocError>
        requires before { self.old.last.at ≤ at }
        requires within { at ≤ length self.old.text.now }
        ensures last { OnOk result (self.new.last.at ≡ at) }
        ensures text { self.new.text.now ≡ self.old.text.now }
        ensures encoding { self.new.encoding ≡ self.old.encoding }
    {
        'marks: while at - self.last.at > APART + NEAR {
            let next = self.last.at + APART;
            let spot = self.spot_at(next);
            self.mark(spot)?;
        }
        self.last = self.spot_at(at);
        Ok(())
    }

    /// The spot of a place, from the last one on.
    fn spot_at(&self, at: usize) -> Spot
        requires before { self.now.last.at ≤ at }
        requires within { at ≤ length self.now.text.now }
        ensures at { result.at ≡ at }
        ensures spot { IsAt self.now.encoding self.now.text.now at result.position }
    {
        spot_from(self.encoding, self.text, self.last, at)
    }

    /// Marks what marks from a spot on have become that stands at the last spot now.
    fn mark_moved(&mut self, marks: &[Waymark], from: Spot) -> Result<(), AllocError>
        requires { (old : List ℕ)
            × HasMoved self.old.encoding self.old.text.now old from self.old.last
            × All (IsWaymark self.old.encoding old) marks.now }
        ensures text { self.new.text.now ≡ self.old.text.now }
        ensures encoding { self.new.encoding ≡ self.old.encoding }
    {
        let to = self.last;
        for mark in marks {
            let spot = mark.spot();
            if spot.at >= from.at {
                let spot = self.moved(spot, from, to);
                self.mark(spot)?;
            }
        }
        Ok(())
    }

    /// What a spot has become, where one before it has become another.
    fn moved(&self, spot: Spot, from: Spot, to: Spot) -> Spot
        requires moved { (old : List ℕ) × HasMoved self.now.encoding self.now.text.now old from to
            × IsAt self.now.encoding old spot.at spot.position }
        requires behind { from.at ≤ spot.at }
        ensures { IsAt self.now.encoding self.now.text.now result.at result.position }
    {
        let line = spot.position.line - from.position.line;
        let character = if line == 0 {
            to.position.character + (spot.position.character - from.position.character)
        } else {
            spot.position.character
        };
        Spot {
            at: to.at + (spot.at - from.at),
            position: Position {
                line: to.position.line + line,
                character,
            },
        }
    }
}
