//! The lines of a text, and the columns of its places.
ghost use Rattle.std.specs.Prelude.{◌≡◌, ◌==◌, ◌+◌, ◌-◌, ◌^◌, ◌<◌, ◌≤◌, length, count_by, reverse};
ghost use Rattle.std.specs.Prelude.{if◌then◌else◌};
ghost use Rattle.std.specs.List.{prefix_len};
ghost use Rattle.x_text.specs.Text.{is_line_feed, is_in_line, line_of, column_of, AreCounts};

use crate::Source;
use memchr::{memchr_iter, memrchr};
use std::marker::Model;

/// How many line feeds the bytes have.
#[tactic(auto, using(crate::proofs::Columns::line_feeds_are))]
fn line_feeds(bytes: &[u8]) -> usize
    ensures count { result ≡ count_by is_line_feed bytes.now }
    ensures within { result ≤ length bytes.now }
{
    memchr_iter(b'\n', bytes).count()
}

/// How many bytes stand behind the last line feed, or how many there are where there is none.
#[tactic(auto, using(crate::proofs::Columns::last_feed))]
fn last_line(bytes: &[u8]) -> usize
    ensures count { result ≡ prefix_len is_in_line (reverse bytes.now) }
    ensures within { result ≤ length bytes.now }
{
    match memrchr(b'\n', bytes) {
        Some(feed) => bytes.len() - feed - 1,
        None => bytes.len(),
    }
}

/// The length of the last line of bytes that follow a line of `before` bytes: `line` is that of the bytes
/// alone.
fn joined_line(before: usize, line: usize, length: usize) -> usize
    requires { before + length < 2 ^ 64 }
    ensures { result ≡ (if line == length then length + before else line) }
{
    if line == length {
        length + before
    } else {
        line
    }
}

/// A place of a text, the line feeds before it, and the bytes since the last of them.
#[derive(Clone, Copy, Debug)]
struct Counted {
    at: usize,
    feeds: usize,
    since_feed: usize,
}

/// The counts of the first place.
const START: Counted = Counted {
    at: 0,
    feeds: 0,
    since_feed: 0,
};

/// The counts of a later place.
#[tactic(auto, using(crate::proofs::Columns::since_le))]
fn counted_at(bytes: &[u8], from: Counted, to: usize) -> Counted
    requires counts { AreCounts bytes.now from.at from.feeds from.since_feed }
    requires forward { from.at ≤ to }
    requires within { to ≤ length bytes.now }
    ensures counts { AreCounts bytes.now to result.feeds result.since_feed }
    ensures place { result.at ≡ to }
    ensures within { result.since_feed ≤ to }
{
    let passed = &bytes[from.at..to];
    let line = last_line(passed);
    Counted {
        at: to,
        feeds: from.feeds + line_feeds(passed),
        since_feed: joined_line(from.since_feed, line, passed.len()),
    }
}

/// Tells lines and columns of a text. Places that are asked for in order are found in one pass over it.
#[derive(Debug, Drop)]
pub struct Lines<'s> {
    source: &'s Source,
    counted: Counted,
}

impl<'s> Model for Lines<'s> {
    ghost use Rattle.std.specs.Prelude.{ℕ, List};
    ghost use Rattle.x_text.specs.Text.{AreCounts};

    ghost Value = { List ℕ };

    ghost view = { λ l. l.source.now };

    ghost invariant = { λ l. AreCounts l.source.now l.counted.at l.counted.feeds l.counted.since_feed };
}

impl<'s> Lines<'s> {
    /// The lines of a text.
    #[tactic(auto, using(crate::proofs::Columns::counts_first))]
    pub fn of(source: &'s Source) -> Lines<'s>
        ensures { result ≡ source.now }
    {
        let _ = source.bytes();
        Lines {
            source,
            counted: START,
        }
    }

    /// The line and the column of a place, each counted from 1: the line feeds before it, and the bytes since
    /// the last of them.
    pub fn line_col(&mut self, at: usize) -> (u32, u32)
        ensures line { result.0 ≡ line_of self.old at }
        ensures column { result.1 ≡ column_of self.old at }
        ensures same { self.new ≡ self.old }
    {
        let bytes = self.source.bytes();
        let to = at.min(bytes.len());
        let from = if to < self.counted.at {
            START
        } else {
            self.counted
        };
        let counted = counted_at(bytes, from, to);
        self.counted = counted;
        place_of(counted)
    }
}

/// The line and the column by their counts.
fn place_of(counted: Counted) -> (u32, u32)
    requires feeds { counted.feeds < 2 ^ 32 - 1 }
    requires since { counted.since_feed < 2 ^ 32 - 1 }
    ensures line { result.0 ≡ 1 + counted.feeds }
    ensures column { result.1 ≡ 1 + counted.since_feed }
{
    (counted.feeds as u32 + 1, counted.since_feed as u32 + 1)
}
