//! Bytes that were read and not used yet.
ghost use Rattle.std.specs.Prelude.{◌≡◌, ◌+◌, ◌-◌, ◌≤◌, [], length, take, drop, slice_range, IfOk, OnOk};
ghost use Rattle.std.specs.Prelude.{OnErr, vec_len};
ghost use Rattle.std.specs.Io.KnownBytes.{Keeps};
ghost use Rattle.x_lines.specs.Lines.{HasCome, FailsBy};
ghost use Rattle.x_lines.specs.declared.byte_queue.TheConstants.{PIECE};

use crate::lines::LineFault;
use std::alloc::{AllocError, Global};
use std::marker::Model;
use x_streams::Tap;

/// Room for this many bytes at least is offered to a tap.
const PIECE: usize = 65_536;

/// Bytes that come at the back, in pieces from a tap, and go at the front. It is seen as their list.
#[derive(Drop)]
pub(crate) struct ByteQueue {
    buffer: Vec<u8>,
    start: usize,
    end: usize,
}

impl Model for ByteQueue {
    ghost use Rattle.std.specs.Prelude.{ℕ, List, ◌≤◌, vec_len, slice_range};

    ghost Value = { List ℕ };

    ghost view = { λ q. slice_range q.buffer.items q.start q.end };

    ghost invariant = { λ q. (q.start ≤ q.end) × (q.end ≤ vec_len q.buffer) };
}

impl ByteQueue {
    /// An empty queue. It takes no memory.
    pub(crate) fn new(alloc: Global) -> ByteQueue
        ensures { result ≡ [] }
    {
        ByteQueue {
            buffer: Vec::new(alloc),
            start: 0,
            end: 0,
        }
    }

    /// The bytes, first to last.
    pub(crate) fn bytes(&self) -> &[u8]
        ensures { result.now ≡ self.now }
    {
        &self.buffer[self.start..self.end]
    }

    /// Drops so many bytes at the front.
    pub(crate) fn drop_front(&mut self, count: usize)
        requires { count ≤ length self.old }
        ensures { self.new ≡ drop count self.old }
    {
        self.start += count;
    }

    /// Reads a piece, and answers how many bytes came: none only at the tap's end.
    pub(crate) fn read<R: Tap>(&mut self, tap: &mut R) -> Result<usize, LineFault>
        ensures come { IfOk result
            (HasCome self.old self.new (R.state tap.old).bytes (R.state tap.new).bytes) }
        ensures kept { OnErr result (self.new ≡ self.old) }
        ensures none_lost { OnErr result (Keeps (R.state tap.old).bytes (R.state tap.new).bytes) }
        ensures failed { FailsBy result (R.state tap.old).failed (R.state tap.new).failed }
    {
        move_to_front(&mut self.buffer, self.start, self.end);
        self.end -= self.start;
        self.start = 0;
        let Ok(()) = make_room(&mut self.buffer, self.end) else {
            return Err(LineFault::NoMemory);
        };
        match tap.take(&mut self.buffer[self.end..]) {
            Ok(count) => {
                self.end += count;
                Ok(count)
            }
            Err(_) => Err(LineFault::Read),
        }
    }
}

/// Moves the bytes from `start` to before `end` to the front.
fn move_to_front(buffer: &mut Vec<u8>, start: usize, end: usize)
    requires ordered { start ≤ end }
    requires within { end ≤ vec_len buffer.old }
    ensures moved { take (end - start) buffer.new.items ≡ slice_range buffer.old.items start end }
    ensures len { vec_len buffer.new ≡ vec_len buffer.old }
{
    if start > 0 {
        buffer.copy_within(start..end, 0);
    }
}

/// Doubles the buffer where it has no room for a piece behind its first `end` bytes.
fn make_room(buffer: &mut Vec<u8>, end: usize) -> Result<(), AllocError>
    requires { end ≤ vec_len buffer.old }
    ensures same { take end buffer.new.items ≡ take end buffer.old.items }
    ensures within { end ≤ vec_len buffer.new }
    ensures room { OnOk result (end + PIECE ≤ vec_len buffer.new) }
{
    let len = buffer.len();
    if len - end >= PIECE {
        return Ok(());
    }
    buffer.resize(len + len.max(PIECE), 0)
}
