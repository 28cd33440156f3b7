//! Reads the lines of a script.
ghost use Rattle.std.specs.Prelude.{◌≡◌, ◌≤◌, [], ℕ, List, Option, length, take, MatchBool, MatchOption};
ghost use Rattle.std.specs.Prelude.{MatchResult, Ok};
ghost use Rattle.std.specs.List.{prefix_len};
ghost use Rattle.x_lines.specs.Lines.{Advances, EndIs, EndsAt, FailsBy, HasNoFeed, HasPassed, HasSearched};
ghost use Rattle.x_lines.specs.Lines.{IsBehindFeed, IsTrimmed, is_feed};
ghost use Rattle.x_lines.specs.declared.lines.LineEvent.TheVariants.{End};
ghost use Rattle.x_lines.specs.declared.lines.TheConstants.{LONGEST};
ghost use Rattle.x_lines.specs.declared.lines.State.TheVariants.{Between, WithinLong, Ended};

use crate::byte_queue::ByteQueue;
use memchr::memchr;
use std::alloc::Global;
use std::marker::Model;
use thiserror::Error;
use x_streams::Tap;

/// The most bytes of a line, without its line feed.
pub const LONGEST: usize = 33_600_000;

/// Why there is no line.
#[derive(Clone, Copy, Debug, PartialEq, Eq, Error)]
pub enum LineFault {
    /// The tap failed.
    #[error("a read failed")]
    Read,
    /// Memory ran out.
    #[error("out of memory")]
    NoMemory,
}

/// What [`LineReader::next`] found.
#[derive(Clone, Copy, Debug, PartialEq, Eq)]
pub enum LineEvent {
    /// A line, which [`LineReader::line`] gives.
    Line,
    /// A line of more than [`LONGEST`] bytes, which is passed over.
    TooLong,
    /// The end: there are no more lines.
    End,
}

/// Where a reader stands.
#[derive(Clone, Copy, Debug, PartialEq, Eq)]
pub(crate) enum State {
    /// Between two lines.
    Between,
    /// Within a line that is too long.
    WithinLong,
    /// At the end, of which the tap is not asked again.
    Ended,
}

/// Reads the lines of a script from a tap, one by one, and passes over empty lines.
///
/// It keeps what it read and did not give yet, so it is to be used with one tap alone.
#[derive(Drop)]
pub struct LineReader {
    queue: ByteQueue,
    /// How many bytes at the queue's front are the line that was found last.
    line: usize,
    /// How many bytes at the queue's front are given: the line and its line feed.
    given: usize,
    state: State,
}

impl Model for LineReader {
    ghost use Rattle.std.specs.Prelude.{◌≤◌, take, drop, length};
    ghost use Rattle.x_lines.specs.Lines.{Reading};
    ghost use Rattle.x_lines.specs.declared.lines.TheConstants.{LONGEST};

    ghost Value = { Reading };

    ghost view = { λ r. record {
      line = take r.line r.queue;
      bytes = drop r.given r.queue;
      state = r.state;
    } };

    ghost invariant = { λ r. (r.line ≤ r.given) × (r.given ≤ length r.queue) × (r.line ≤ LONGEST) };
}

impl LineReader {
    /// A reader that has read nothing. It takes no memory.
    pub fn new(alloc: Global) -> LineReader
        ensures { result ≡ record { line = []; bytes = []; state = Between } }
    {
        LineReader {
            queue: ByteQueue::new(alloc),
            line: 0,
            given: 0,
            state: State::Between,
        }
    }

    /// The line, without its line feed, where the last call of [`LineReader::next`] found one.
    pub fn line(&self) -> &[u8]
        ensures line { result.now ≡ self.now.line }
        ensures short { length result.now ≤ LONGEST }
    {
        &self.queue.bytes()[..self.line]
    }

    /// Finds the next line that is not empty.
    ///
    /// # Errors
    /// The tap failed, or memory ran out. The line that it is in stays unread.
    pub fn next<R: Tap>(&mut self, tap: &mut R) -> Result<LineEvent, LineFault>
        ensures lines { Advances self.old self.new (R.state tap.old).bytes (R.state tap.new).bytes result }
        ensures failed { FailsBy result (R.state tap.old).failed (R.state tap.new).failed }
        ensures ended { self.old.state ≡ Ended → result ≡ Ok End }
    {
        match self.state {
            State::Between => self.next_line(tap),
            State::WithinLong => self.end_of_long(tap),
            State::Ended => Ok(LineEvent::End),
        }
    }

    /// Finds the next line, where the reader stands between two.
    fn next_line<R: Tap>(&mut self, tap: &mut R) -> Result<LineEvent, LineFault>
        requires { self.old.state ≡ Between }
        ensures lines { Advances self.old self.new (R.state tap.old).bytes (R.state tap.new).bytes result }
        ensures failed { FailsBy result (R.state tap.old).failed (R.state tap.new).failed }
    {
        self.queue.drop_front(self.given);
        self.line = 0;
        self.given = 0;
        match find_end(&mut self.queue, tap)? {
            LineEnd::Feed(len) => {
                self.line = len;
                self.given = len + 1;
                Ok(LineEvent::Line)
            }
            LineEnd::Text(len) => {
                self.given = len;
                self.line = len;
                self.state = State::Ended;
                Ok(if len == 0 {
                    LineEvent::End
                } else {
                    LineEvent::Line
                })
            }
            LineEnd::Far => {
                self.given = LONGEST + 1;
                self.state = State::WithinLong;
                self.end_of_long(tap)
            }
        }
    }

    /// Passes over what is left of a line that is too long.
    fn end_of_long<R: Tap>(&mut self, tap: &mut R) -> Result<LineEvent, LineFault>
        requires { self.old.state ≡ WithinLong }
        ensures lines { Advances self.old self.new (R.state tap.old).bytes (R.state tap.new).bytes result }
        ensures failed { FailsBy result (R.state tap.old).failed (R.state tap.new).failed }
    {
        self.queue.drop_front(self.given);
        self.line = 0;
        self.given = 0;
        if pass_feed(&mut self.queue, tap)? {
            self.state = State::Between;
        } else {
            self.state = State::Ended;
        }
        Ok(LineEvent::TooLong)
    }
}

/// Where a line ends.
pub(crate) enum LineEnd {
    /// At a line feed behind so many bytes.
    Feed(usize),
    /// At the tap's end, with so many bytes.
    Text(usize),
    /// Not within the most bytes of a line.
    Far,
}

/// Drops line feeds at the front, and finds where the line behind them ends; more bytes are read as they are
/// needed.
fn find_end<R: Tap>(queue: &mut ByteQueue, tap: &mut R) -> Result<LineEnd, LineFault>
    ensures come { HasSearched queue.old queue.new (R.state tap.old).bytes (R.state tap.new).bytes }
    ensures found { MatchResult result (λ end. EndIs end queue.new (R.state tap.new).bytes)
        (λ _. HasNoFeed queue.new) }
    ensures failed { FailsBy result (R.state tap.old).failed (R.state tap.new).failed }
{
    if let Some(len) = search(queue, 0) {
        return Ok(line_end(len));
    }
    'pieces: for _ in 0..u64::MAX {
        let searched = queue.bytes().len();
        if searched > LONGEST {
            return Ok(LineEnd::Far);
        }
        if queue.read(tap)? == 0 {
            return Ok(LineEnd::Text(searched));
        }
        if let Some(len) = search(queue, searched) {
            return Ok(line_end(len));
        }
    }
    // No tap comes to so many pieces.
    Err(LineFault::NoMemory)
}

/// The end of a line whose line feed stands behind so many bytes.
fn line_end(len: usize) -> LineEnd
    ensures { (bytes : List ℕ) (left : Option (List ℕ)) → EndsAt bytes len → EndIs result bytes left }
{
    if len > LONGEST {
        LineEnd::Far
    } else {
        LineEnd::Feed(len)
    }
}

/// Drops line feeds at the front, and finds the first one behind other bytes. The first `searched` bytes hold
/// none.
fn search(queue: &mut ByteQueue, searched: usize) -> Option<usize>
    requires within { searched ≤ length queue.old }
    requires no_feed { HasNoFeed (take searched queue.old) }
    ensures trimmed { IsTrimmed queue.old queue.new }
    ensures found { MatchOption result (HasNoFeed queue.new) (EndsAt queue.new) }
{
    let feeds = leading_feeds(queue.bytes());
    queue.drop_front(feeds);
    let at = memchr(b'\n', &queue.bytes()[searched..])?;
    Some(searched + at)
}

fn leading_feeds(bytes: &[u8]) -> usize
    ensures { result ≡ prefix_len is_feed bytes.now }
{
    bytes.iter().take_while(|byte| **byte == b'\n').count()
}

/// Drops all bytes up to the first line feed and it, and answers whether there was one before the tap's end.
fn pass_feed<R: Tap>(queue: &mut ByteQueue, tap: &mut R) -> Result<bool, LineFault>
    ensures passed { HasPassed queue.old queue.new (R.state tap.old).bytes (R.state tap.new).bytes result }
    ensures failed { FailsBy result (R.state tap.old).failed (R.state tap.new).failed }
{
    if drop_feed(queue) {
        return Ok(true);
    }
    'pieces: for _ in 0..u64::MAX {
        if queue.read(tap)? == 0 {
            return Ok(false);
        }
        if drop_feed(queue) {
            return Ok(true);
        }
    }
    // No tap comes to so many pieces.
    Err(LineFault::NoMemory)
}

/// Drops all bytes up to the first line feed and it, or all where there is none, and answers whether there
/// was one.
fn drop_feed(queue: &mut ByteQueue) -> bool
    ensures { MatchBool result (IsBehindFeed queue.old queue.new) (HasNoFeed queue.old × (queue.new ≡ [])) }
{
    let bytes = queue.bytes();
    match memchr(b'\n', bytes) {
        Some(at) => {
            queue.drop_front(at + 1);
            true
        }
        None => {
            let all = bytes.len();
            queue.drop_front(all);
            false
        }
    }
}
