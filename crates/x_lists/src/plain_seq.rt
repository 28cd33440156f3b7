//! A list without a gap.
ghost use Rattle.std.specs.Prelude.{◌≡◌, ◌+◌, ◌-◌, ◌≤◌, ◌++◌, [], length, take, drop, vec_len, vec_capacity};
ghost use Rattle.std.specs.List.{splice};

use super::moves::Moves;
use super::shift::append_in_room;
use crate::{NoMemory, Seq};
use std::alloc::Global;
use std::marker::Model;

/// A [`Seq`] as one vector: a change moves the entries behind it.
#[derive(Debug, Drop)]
pub struct PlainSeq<T> {
    entries: Vec<T>,
    moves: Moves,
}

impl<T> Model for PlainSeq<T> {
    ghost use Rattle.std.specs.Prelude.{◌-◌, vec_len, vec_capacity};
    ghost use Rattle.x_lists.specs.Seqs.{Roomy};

    ghost Value = { Roomy T };

    ghost view = { λ s. record {
      list = s.entries.items;
      spare = vec_capacity s.entries - vec_len s.entries;
      moved = s.moves.total;
    } };
}

impl<T> PlainSeq<T> {
    /// The empty list, which has no room yet.
    pub fn new(alloc: Global) -> PlainSeq<T>
        ensures { result ≡ record { list = []; spare = 0; moved = 0 } }
    {
        PlainSeq {
            entries: Vec::new(alloc),
            moves: Moves::none(),
        }
    }
}

impl<T: Drop> Seq<T> for PlainSeq<T> {
    ghost use Rattle.std.specs.Prelude.{◌+◌, ◌-◌, length};

    ghost list = { λ s. s.list };

    ghost spare = { λ s. s.spare };

    ghost moved = { λ s. s.moved };

    ghost moves = { λ s at remove. length s.list - (at + remove) };

    fn len(&self) -> usize {
        self.entries.len()
    }

    fn get(&self, index: usize) -> Option<&T> {
        self.entries.get(index)
    }

    fn spare(&self) -> usize {
        self.entries.capacity() - self.entries.len()
    }

    fn reserve(&mut self, extra: usize) -> Result<(), NoMemory> {
        self.entries.reserve(extra)?;
        Ok(())
    }

    #[tactic(auto, using(crate::proofs::SeqLemmas::replaced))]
    fn splice(&mut self, at: usize, remove: usize, new: Vec<T>) -> u64
        requires within { at + remove ≤ length self.old.list }
        requires room { length new.items ≤ self.old.spare }
        ensures list { self.new.list ≡ splice self.old.list at (at + remove) new.items }
        ensures moved { result ≡ length self.old.list - (at + remove) }
        ensures counted { self.new.moved ≡ self.old.moved + result }
        ensures room { self.old.spare + remove ≤ self.new.spare + length new.items }
    {
        let moved = self.entries.len() - (at + remove);
        // The kept entries go before the removed ones, and then behind the new ones.
        rotate_behind(&mut self.entries, at, remove);
        self.entries.truncate(at + moved);
        append_in_room(&mut self.entries, new);
        rotate_behind(&mut self.entries, at, moved);
        self.moves.count_all(moved);
        moved as u64
    }
}

/// Moves `count` entries, from `at` on, behind all that follow them.
fn rotate_behind<T>(entries: &mut Vec<T>, at: usize, count: usize)
    requires { at + count ≤ vec_len entries.old }
    ensures items { entries.new.items ≡ take at entries.old.items
        ++ (drop (at + count) entries.old.items ++ take count (drop at entries.old.items)) }
    ensures len { vec_len entries.new ≡ vec_len entries.old }
    ensures capacity { vec_capacity entries.new ≡ vec_capacity entries.old }
{
    entries[at..].rotate_left(count);
}
