//! Messages read from a tap that gives its bytes in any pieces.

ghost use Rattle.std.specs.Prelude.{◌≡◌, ◌≤◌, [], drop, Ok, OnErr, vec_len};
ghost use Rattle.std.specs.Io.KnownBytes.{IsAtEnd};
ghost use Rattle.x_frames.specs.Framing.{FailsReading, ReadsFrame};
ghost use Rattle.x_frames.specs.FrameSteps.{FindsBody, FindsHead, HasCome, IsHeadOf, Passes};

use crate::head::{Head, find_head};
use std::alloc::Global;
use std::marker::Model;
use thiserror::Error;
use x_text::Tap;

/// The most bytes of a message's body that is read.
pub const MOST_BODY: usize = 67_108_864;

/// The most bytes of a message's header fields, with the empty line behind them.
pub const MOST_HEAD: usize = 65_536;

/// How many bytes are offered to a tap.
const PIECE: usize = 65_536;

/// Why there is no message.
#[derive(Clone, Copy, Debug, PartialEq, Eq, Error)]
pub enum FrameFault {
    /// The tap failed.
    #[error("a read failed")]
    Read,
    /// Memory ran out.
    #[error("out of memory")]
    NoMemory,
    /// What was read is no message, and no bytes that follow make it one; or it is none at the end.
    #[error("no message")]
    Bad,
}

/// What [`MessageReader::next`] found.
#[derive(Clone, Copy, Debug, PartialEq, Eq)]
pub enum FrameFound {
    /// A message, whose body [`MessageReader::body`] gives.
    Message,
    /// A message whose body has more than [`MOST_BODY`] bytes. They are passed over.
    Long,
    /// The end: there are no more messages.
    End,
}

/// Reads messages from a tap, one by one. It takes memory by what came, and not by what a header announces.
///
/// It keeps what it read and did not give yet, so it is to be used with one tap alone.
#[derive(Drop)]
pub struct MessageReader {
    buffer: Vec<u8>,
    /// Where the body that was found last starts and ends in it.
    start: usize,
    end: usize,
}

impl Model for MessageReader {
    ghost use Rattle.std.specs.Prelude.{◌≤◌, vec_len, slice_range, drop};
    ghost use Rattle.x_frames.specs.Framing.{FrameReading};

    ghost Value = { FrameReading };

    ghost view = { λ r. record {
      body = slice_range r.buffer.items r.start r.end;
      unread = drop r.end r.buffer.items;
    } };

    ghost invariant = { λ r. (r.start ≤ r.end) × (r.end ≤ vec_len r.buffer) };
}

impl MessageReader {
    /// A reader that has read nothing. It takes no memory.
    pub fn new(alloc: Global) -> MessageReader
        ensures { result ≡ record { body = []; unread = [] } }
    {
        MessageReader {
            buffer: Vec::new(alloc),
            start: 0,
            end: 0,
        }
    }

    /// The body of the message that was found last.
    pub fn body(&self) -> &[u8]
        ensures { result.now ≡ self.now.body }
    {
        &self.buffer[self.start..self.end]
    }

    /// The bytes that came behind that message, as far as they were read.
    pub fn unread(&self) -> &[u8]
        ensures { result.now ≡ self.now.unread }
    {
        &self.buffer[self.end..]
    }

    /// Finds the next message. It takes no memory for a body that is too long.
    ///
    /// # Errors
    /// The tap failed, memory ran out, or there is no message.
    pub fn next<R: Tap>(&mut self, tap: &mut R) -> Result<FrameFound, FrameFault>
        ensures frame { ReadsFrame self.old self.new (R.state tap.old).bytes (R.state tap.new).bytes result }
        ensures failed { FailsReading result (R.state tap.old).failed (R.state tap.new).failed }
    {
        drop_front(&mut self.buffer, self.end);
        self.start = 0;
        self.end = 0;
        let Some(head) = read_head(&mut self.buffer, tap)? else {
            return Ok(FrameFound::End);
        };
        if head.body > MOST_BODY {
            drop_front(&mut self.buffer, head.length);
            pass(&mut self.buffer, head.body, tap)?;
            return Ok(FrameFound::Long);
        }
        read_body(&mut self.buffer, &head, tap)?;
        self.start = head.length;
        self.end = head.length + head.body;
        Ok(FrameFound::Message)
    }
}

/// Drops so many bytes at the front.
fn drop_front(buffer: &mut Vec<u8>, count: usize)
    requires { count ≤ vec_len buffer.old }
    ensures { buffer.new.items ≡ drop count buffer.old.items }
{
    let left = buffer.len() - count;
    buffer.copy_within(count.., 0);
    buffer.truncate(left);
}

/// Reads on until the header fields of a message have come. There is none where nothing comes.
fn read_head<R: Tap>(buffer: &mut Vec<u8>, tap: &mut R) -> Result<Option<Head>, FrameFault>
    ensures come { HasCome buffer.old.items buffer.new.items (R.state tap.old).bytes (R.state tap.new).bytes }
    ensures found { FindsHead result buffer.new.items (R.state tap.new).bytes }
    ensures failed { FailsReading result (R.state tap.old).failed (R.state tap.new).failed }
{
    'pieces: for _ in 0..u64::MAX {
        if let Some(head) = find_head(buffer)? {
            return Ok(Some(head));
        }
        if read_piece(buffer, tap)? == 0 {
            return if buffer.is_empty() {
                Ok(None)
            } else {
                Err(FrameFault::Bad)
            };
        }
    }
    // No tap comes to so many pieces.
    Err(FrameFault::NoMemory)
}

/// Reads on until the body of a message has come.
fn read_body<R: Tap>(buffer: &mut Vec<u8>, head: &Head, tap: &mut R) -> Result<(), FrameFault>
    requires { head.now.length ≤ vec_len buffer.old }
    ensures come { HasCome buffer.old.items buffer.new.items (R.state tap.old).bytes (R.state tap.new).bytes }
    ensures found { FindsBody result head.now buffer.new.items (R.state tap.new).bytes }
    ensures failed { FailsReading result (R.state tap.old).failed (R.state tap.new).failed }
{
    'pieces: for _ in 0..u64::MAX {
        if buffer.len() - head.length >= head.body {
            return Ok(());
        }
        if read_piece(buffer, tap)? == 0 {
            return Err(FrameFault::Bad);
        }
    }
    // No tap comes to so many pieces.
    Err(FrameFault::NoMemory)
}

/// Passes over so many bytes, and reads on where they have not come.
fn pass<R: Tap>(buffer: &mut Vec<u8>, count: usize, tap: &mut R) -> Result<(), FrameFault>
    ensures passes { Passes result count buffer.old.items buffer.new.items (R.state tap.old).bytes
        (R.state tap.new).bytes }
    ensures failed { FailsReading result (R.state tap.old).failed (R.state tap.new).failed }
{
    let mut left = count;
    'pieces: for _ in 0..u64::MAX {
        let here = buffer.len();
        if left <= here {
            drop_front(buffer, left);
            return Ok(());
        }
        left -= here;
        if next_piece(buffer, tap)? == 0 {
            return Err(FrameFault::Bad);
        }
    }
    // No tap comes to so many pieces.
    Err(FrameFault::NoMemory)
}

/// Reads a piece in place of the others, and answers how many bytes came: none only at the tap's end.
fn next_piece<R: Tap>(buffer: &mut Vec<u8>, tap: &mut R) -> Result<usize, FrameFault>
    ensures come { HasCome [] buffer.new.items (R.state tap.old).bytes (R.state tap.new).bytes }
    ensures end { result ≡ Ok 0 → IsAtEnd (R.state tap.new).bytes × (buffer.new.items ≡ []) }
    ensures other { result ≡ Err FrameFault.Bad → ⊥ }
    ensures same { OnErr result (buffer.new.items ≡ []) }
    ensures failed { FailsReading result (R.state tap.old).failed (R.state tap.new).failed }
{
    buffer.clear();
    read_piece(buffer, tap)
}

/// Reads a piece behind the others, and answers how many bytes came: none only at the tap's end.
fn read_piece<R: Tap>(buffer: &mut Vec<u8>, tap: &mut R) -> Result<usize, FrameFault>
    ensures come { HasCome buffer.old.items buffer.new.items (R.state tap.old).bytes (R.state tap.new).bytes }
    ensures end { result ≡ Ok 0 → IsAtEnd (R.state tap.new).bytes × (buffer.new.items ≡ buffer.old.items) }
    ensures other { result ≡ Err FrameFault.Bad → ⊥ }
    ensures same { OnErr result (buffer.new.items ≡ buffer.old.items) }
    ensures failed { FailsReading result (R.state tap.old).failed (R.state tap.new).failed }
{
    let len = buffer.len();
    if buffer.resize(len + PIECE, 0).is_err() {
        return Err(FrameFault::NoMemory);
    }
    match tap.take(&mut buffer[len..]) {
        Ok(count) => {
            buffer.truncate(len + count);
            Ok(count)
        }
        Err(_) => {
            buffer.truncate(len);
            Err(FrameFault::Read)
        }
    }
}
