//! What takes the place of some entries of a list.
ghost use Rattle.std.specs.Prelude.{◌≡◌, ◌↔◌, ◌<◌, [], Some, IsTrue, length};
ghost use Rattle.std.specs.Prelude.{option_copied, slice_get, slice_set};

use std::marker::Model;
use std::mem;

/// Fresh entries that take the place of some old ones of a [`crate::MeasuredSeq`].
#[derive(Debug, Drop)]
pub struct SeqPatch<T> {
    at: usize,
    removed: usize,
    start: usize,
    fresh: Vec<T>,
}

impl<T> Model for SeqPatch<T> {
    ghost use Rattle.x_lists.specs.Lengths.{Patch};

    ghost Value = { Patch T };

    ghost view = { λ patch. record {
      at = patch.at;
      removed = patch.removed;
      start = patch.start;
      fresh = patch.fresh.items;
    } };
}

impl<T> SeqPatch<T> {
    /// These entries, the first of which starts at `start`, in place of `removed` old ones from index `at`
    /// on.
    pub fn new(at: usize, removed: usize, start: usize, fresh: Vec<T>) -> SeqPatch<T>
        ensures { result ≡ record { at = at; removed = removed; start = start; fresh = fresh.items } }
    {
        SeqPatch {
            at,
            removed,
            start,
            fresh,
        }
    }

    /// The index at which old entries go and fresh ones come.
    pub fn at(&self) -> usize
        ensures { result ≡ self.now.at }
    {
        self.at
    }

    /// How many old entries go.
    pub fn removed(&self) -> usize
        ensures { result ≡ self.now.removed }
    {
        self.removed
    }

    /// Where the first fresh entry starts, each of the others starting where the one before it ends.
    pub fn start(&self) -> usize
        ensures { result ≡ self.now.start }
    {
        self.start
    }

    /// How many fresh entries there are.
    pub fn len(&self) -> usize
        ensures { result ≡ length self.now.fresh }
    {
        self.fresh.len()
    }

    /// Whether there is no fresh entry.
    pub fn is_empty(&self) -> bool
        ensures { IsTrue result ↔ (self.now.fresh ≡ []) }
    {
        self.fresh.is_empty()
    }

    /// The fresh entries.
    pub fn fresh(&self) -> &[T]
        ensures { result.now ≡ self.now.fresh }
    {
        &self.fresh
    }

    /// The fresh entry at `index`, counted from the first of them.
    pub fn get(&self, index: usize) -> Option<&T>
        ensures { option_copied result ≡ slice_get self.now.fresh index }
    {
        self.fresh.get(index)
    }

    /// The fresh entries, taken out of the patch.
    pub fn into_fresh(self) -> Vec<T>
        ensures { result.items ≡ self.fresh }
    {
        self.fresh
    }

    /// Puts an entry in the place of the fresh one at `index`, counted from the first of them, and gives that
    /// one back.
    pub fn exchange(&mut self, index: usize, new: T) -> T
        requires { index < length self.old.fresh }
        ensures out { slice_get self.old.fresh index ≡ Some result }
        ensures put { self.new ≡ record self.old { fresh = slice_set self.old.fresh index new } }
    {
        mem::replace(&mut self.fresh[index], new)
    }
}
