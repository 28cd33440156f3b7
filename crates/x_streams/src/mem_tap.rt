//! A tap that gives bytes from memory.
ghost use Rattle.std.specs.Prelude.{◌≡◌, ◌↔◌, ◌+◌, ◌<◌, false, min, length, IfOk, MatchResult, IsErr};
ghost use Rattle.x_streams.specs.Memory.{in_memory, share, Fails};
ghost use Rattle.x_streams.specs.Streams.{FailsForGood, Takes};

use crate::{Broken, Tap};
use std::marker::Model;

/// A [`Tap`] over memory, for tests: it moves at most a set number of bytes a call, and fails after a set
/// number of bytes, at its end too.
#[derive(Debug, Drop)]
pub struct MemTap<'b> {
    bytes: &'b [u8],
    most: usize,
    left: usize,
    failed: bool,
}

impl<'b> Model for MemTap<'b> {
    ghost use Rattle.std.specs.Prelude.{◌<◌};
    ghost use Rattle.x_streams.specs.Memory.{MemState};

    ghost Value = { MemState };

    ghost view = { λ t. record { bytes = t.bytes.now; most = t.most; left = t.left; failed = t.failed } };

    ghost invariant = { λ t. 0 < t.most };
}

impl<'b> MemTap<'b> {
    /// A tap over the bytes that moves at most `most` of them a call, and fails after `left` of them.
    pub fn new(bytes: &'b [u8], most: usize, left: usize) -> MemTap<'b>
        requires { 0 < most }
        ensures state { result ≡ record { bytes = bytes.now; most = most; left = left; failed = false } }
        ensures tap { ⟦<MemTap<'b> as Tap>⟧.state result ≡ in_memory result }
    {
        MemTap {
            bytes,
            most,
            left,
            failed: false,
        }
    }
}

impl Tap for MemTap<'_> {
    ghost state = { in_memory };

    fn take(&mut self, buffer: &mut [u8]) -> Result<usize, Broken>
        ensures taken { Takes (in_memory self.old) (in_memory self.new) result buffer.new }
        ensures fails { FailsForGood (in_memory self.old) (in_memory self.new) result }

        ensures count { IfOk result
            (λ n. n ≡ share self.old (min (length buffer.old) (length self.old.bytes))) }
        ensures refuses { IsErr result ↔ Fails self.old (length buffer.old) }
        ensures left { MatchResult result
            (λ n. self.new.left + n ≡ self.old.left) (λ _. self.new.left ≡ self.old.left) }
        ensures most { self.new.most ≡ self.old.most }
    {
        if self.failed || (self.left == 0 && !buffer.is_empty()) {
            self.failed = true;
            return Err(Broken);
        }
        let offered = buffer.len().min(self.bytes.len());
        let count = offered.min(self.most).min(self.left);
        let (moved, rest) = self.bytes.split_at(count);
        buffer[..count].copy_from_slice(moved);
        self.bytes = rest;
        self.left -= count;
        Ok(count)
    }
}
