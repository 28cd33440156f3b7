//! A list with a gap at its seat.
ghost use Rattle.std.specs.Prelude.{◌≡◌, ◌↔◌, ◌+◌, ◌<◌, ◌≤◌, ◌^◌, [], Some, IfOk, IsOk, OnOk, OnErr, length};
ghost use Rattle.std.specs.Prelude.{drop, slice_get, slice_set, option_copied};
ghost use Rattle.std.specs.List.{splice};
ghost use Rattle.x_lists.specs.Seqs.{distance};

use super::moves::Moves;
use super::shift::{append_in_room, push_in_room, seek};
use crate::{GapIter, NoMemory, Seq};
use std::alloc::Global;
use std::marker::Model;
use std::mem;

/// A [`Seq`] as two stacks that meet at a seat: a change near the last one moves few entries.
///
/// Each stack has room for all entries.
#[derive(Debug, Drop)]
pub struct GapSeq<T> {
    front: Vec<T>,
    /// The entries behind the seat, the last of them first.
    rear: Vec<T>,
    moves: Moves,
}

impl<T> Model for GapSeq<T> {
    ghost use Rattle.std.specs.Prelude.{◌+◌, ◌-◌, ◌≤◌, ◌++◌, min, reverse, length, vec_len, vec_capacity};
    ghost use Rattle.x_lists.specs.Seqs.{Gapped};

    ghost Value = { Gapped T };

    ghost view = { λ s. record {
      list = s.front.items ++ reverse s.rear.items;
      seat = vec_len s.front;
      spare = min (vec_capacity s.front) (vec_capacity s.rear) - (vec_len s.front + vec_len s.rear);
      moved = s.moves.total;
    } };

    // So that entries can go from stack to stack.
    ghost invariant = { λ s. (vec_len s.front + vec_len s.rear ≤ vec_capacity s.front)
        × (vec_len s.front + vec_len s.rear ≤ vec_capacity s.rear) };
}

impl<T> GapSeq<T> {
    /// The empty list, which has no room yet.
    pub fn new(alloc: Global) -> GapSeq<T>
        ensures { result ≡ record { list = []; seat = 0; spare = 0; moved = 0 } }
    {
        GapSeq {
            front: Vec::new(alloc),
            rear: Vec::new(alloc),
            moves: Moves::none(),
        }
    }

    /// How many entries stand before the seat.
    pub fn seat(&self) -> usize
        ensures seat { result ≡ self.now.seat }
        ensures within { result ≤ length self.now.list }
    {
        self.front.len()
    }

    /// Goes over the entries.
    pub fn iter(&self) -> GapIter<'_, T>
        ensures list { result ≡ self.now.list }
        ensures small { length result < 2 ^ 64 }
    {
        GapIter::new(&self.front, &self.rear)
    }

    /// Goes over the entries from that at `index` on.
    pub fn iter_from(&self, index: usize) -> GapIter<'_, T>
        requires { index ≤ length self.now.list }
        ensures list { result ≡ drop index self.now.list }
        ensures small { length result < 2 ^ 64 }
    {
        let seat = self.front.len();
        let front = &self.front[index.min(seat)..];
        let rear = &self.rear[..self.rear.len() - index.saturating_sub(seat)];
        GapIter::new(front, rear)
    }
}

impl<T: Drop> GapSeq<T> {
    /// The list of these entries, which stay where they are, with the seat behind the last of them.
    pub fn from_entries(alloc: Global, entries: Vec<T>) -> Result<GapSeq<T>, NoMemory>
        ensures list { IfOk result (λ s. s.list ≡ entries.items) }
        ensures seat { IfOk result (λ s. s.seat ≡ length entries.items) }
        ensures moved { IfOk result (λ s. s.moved ≡ 0) }
        ensures no_memory { entries.items ≡ [] → IsOk result }
    {
        let mut rear = Vec::new(alloc);
        rear.reserve(entries.len())?;
        Ok(GapSeq {
            front: entries,
            rear,
            moves: Moves::none(),
        })
    }

    /// Puts an entry in the place of the one at `at`, and gives that one back, with how many others moved. It
    /// takes no memory.
    pub fn exchange(&mut self, at: usize, new: T) -> (T, u64)
        requires { at < length self.old.list }
        ensures out { slice_get self.old.list at ≡ Some result.0 }
        ensures list { self.new.list ≡ slice_set self.old.list at new }
        ensures seat { self.new.seat ≡ at + 1 }
        ensures moved { result.1 ≡ distance self.old.seat at (at + 1) }
        ensures counted { self.new.moved ≡ self.old.moved + result.1 }
        ensures room { self.old.spare ≤ self.new.spare }
    {
        if at < self.front.len() {
            let moved = seek(&mut self.front, &mut self.rear, &mut self.moves, at + 1);
            let out = mem::replace(&mut self.front[at], new);
            return (out, moved as u64);
        }
        let moved = seek(&mut self.front, &mut self.rear, &mut self.moves, at);
        let Some(out) = self.rear.pop() else {
            unreachable!();
        };
        push_in_room(&mut self.front, new);
        (out, moved as u64)
    }
}

impl<T: Drop> Seq<T> for GapSeq<T> {
    ghost use Rattle.std.specs.Prelude.{◌+◌};
    ghost use Rattle.x_lists.specs.Seqs.{distance};

    ghost list = { λ s. s.list };

    ghost spare = { λ s. s.spare };

    ghost moved = { λ s. s.moved };

    ghost moves = { λ s at remove. distance s.seat at (at + remove) };

    fn len(&self) -> usize {
        self.seat() + self.rear.len()
    }

    fn get(&self, index: usize) -> Option<&T> {
        let seat = self.seat();
        if index < seat {
            return self.front.get(index);
        }
        let count = self.rear.len();
        if index - seat < count {
            return self.rear.get(count - 1 - (index - seat));
        }
        None
    }

    fn spare(&self) -> usize {
        let room = self.front.capacity().min(self.rear.capacity());
        room - (self.front.len() + self.rear.len())
    }

    fn reserve(&mut self, extra: usize) -> Result<(), NoMemory>
        ensures list { self.new.list ≡ self.old.list }
        ensures seat { self.new.seat ≡ self.old.seat }
        ensures still { self.new.moved ≡ self.old.moved }
        ensures ok { OnOk result (extra ≤ self.new.spare) }
        ensures full { OnErr result (self.old.spare < extra) }
        ensures room { self.old.spare ≤ self.new.spare }
    {
        let more_front = self.rear.len().checked_add(extra).ok_or(NoMemory)?;
        let more_rear = self.front.len().checked_add(extra).ok_or(NoMemory)?;
        self.front.reserve(more_front)?;
        self.rear.reserve(more_rear)?;
        Ok(())
    }

    fn splice(&mut self, at: usize, remove: usize, new: Vec<T>) -> u64
        requires within { at + remove ≤ length self.old.list }
        requires room { length new.items ≤ self.old.spare }
        ensures list { self.new.list ≡ splice self.old.list at (at + remove) new.items }
        ensures seat { self.new.seat ≡ at + length new.items }
        ensures moved { result ≡ distance self.old.seat at (at + remove) }
        ensures counted { self.new.moved ≡ self.old.moved + result }
        ensures room { self.old.spare + remove ≤ self.new.spare + length new.items }
    {
        let seat = self.front.len();
        let end = at + remove;
        let middle = seat.clamp(at, end);
        let moved = seek(&mut self.front, &mut self.rear, &mut self.moves, middle);
        self.front.truncate(at);
        let kept = self.rear.len() - (end - middle);
        self.rear.truncate(kept);
        append_in_room(&mut self.front, new);
        moved as u64
    }
}
