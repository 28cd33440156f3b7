//! A sink that keeps what it takes.
ghost use Rattle.std.specs.Prelude.{◌≡◌, ◌↔◌, ◌+◌, ◌<◌, [], false, min, length, IfOk, MatchResult, IsErr};
ghost use Rattle.std.specs.Io.KnownBytes.{Keeps};
ghost use Rattle.x_streams.specs.Memory.{in_memory, share, Fails};
ghost use Rattle.x_streams.specs.Streams.{FailsForGood, Puts};

use crate::{Broken, Outlet, Sink};
use std::marker::Model;

/// A [`Sink`] over memory, for tests: it takes at most a set number of bytes a call, and fails after a set
/// number of bytes or where its slice is full.
#[derive(Debug, Drop)]
pub struct MemSink<'b> {
    bytes: &'b mut [u8],
    used: usize,
    most: usize,
    left: usize,
    failed: bool,
}

impl<'b> Model for MemSink<'b> {
    ghost use Rattle.std.specs.Prelude.{◌+◌, ◌<◌, ◌≤◌, take, length};
    ghost use Rattle.x_streams.specs.Memory.{MemState};

    ghost Value = { MemState };

    ghost view = { λ s. record {
      bytes = take s.used s.bytes.now;
      most = s.most;
      left = s.left;
      failed = s.failed;
    } };

    ghost invariant = { λ s. (s.used + s.left ≤ length s.bytes.now) × (0 < s.most) };
}

impl<'b> MemSink<'b> {
    /// An empty sink that takes at most `most` bytes a call, and fails after `left` bytes.
    pub fn new(bytes: &'b mut [u8], most: usize, left: usize) -> MemSink<'b>
        requires { 0 < most }
        ensures state { result
            ≡ record { bytes = []; most = most; left = min left (length bytes.old); failed = false } }
        ensures sink { ⟦<MemSink<'b> as Sink>⟧.state result ≡ in_memory result }
    {
        let left = left.min(bytes.len());
        MemSink {
            bytes,
            used: 0,
            most,
            left,
            failed: false,
        }
    }

    /// The bytes that it took.
    pub fn bytes(&self) -> &[u8]
        ensures taken { result.now ≡ self.now.bytes }
        ensures sink { ⟦<MemSink<'b> as Sink>⟧.state self.now ≡ in_memory self.now }
    {
        &self.bytes[..self.used]
    }
}

impl Sink for MemSink<'_> {
    ghost state = { in_memory };

    fn put(&mut self, bytes: &[u8]) -> Result<usize, Broken>
        ensures taken { Puts (in_memory self.old) (in_memory self.new) result bytes.now }
        ensures fails { FailsForGood (in_memory self.old) (in_memory self.new) result }

        ensures count { IfOk result (λ n. n ≡ share self.old (length bytes.now)) }
        ensures refuses { IsErr result ↔ Fails self.old (length bytes.now) }
        ensures left { MatchResult result
            (λ n. self.new.left + n ≡ self.old.left) (λ _. self.new.left ≡ self.old.left) }
        ensures most { self.new.most ≡ self.old.most }
    {
        let count = bytes.len().min(self.most).min(self.left);
        if self.failed || (count == 0 && !bytes.is_empty()) {
            self.failed = true;
            return Err(Broken);
        }
        self.bytes[self.used..self.used + count].copy_from_slice(&bytes[..count]);
        self.used += count;
        self.left -= count;
        Ok(count)
    }

    fn flush(&mut self) -> Result<(), Broken>
        ensures same { Keeps (in_memory self.old).bytes (in_memory self.new).bytes }
        ensures fails { FailsForGood (in_memory self.old) (in_memory self.new) result }

        ensures unchanged { self.new ≡ self.old }
    {
        if self.failed { Err(Broken) } else { Ok(()) }
    }
}

/// Somebody always reads what is in memory.
impl Outlet for MemSink<'_> {
    ghost is_closed = { λ _. false };

    fn is_closed(&self) -> bool {
        false
    }
}
