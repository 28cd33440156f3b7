//! What a list can do whose entries are replaced.
ghost use Rattle.std.specs.Prelude.{◌≡◌, ◌↔◌, ◌+◌, ◌<◌, ◌≤◌, ℕ, List, [], IsTrue, OnOk, OnErr, length};
ghost use Rattle.std.specs.Prelude.{slice_get, option_copied};
ghost use Rattle.std.specs.List.{splice};

use crate::NoMemory;

/// A list of entries, and room for more of them.
///
/// All calls but [`Seq::reserve`] take no memory, so a change whose room was made before it can't be refused.
pub trait Seq<T> {
    /// The entries, in order.
    ghost list: { Self → List T };

    /// How many more entries there is room for.
    ghost spare: { Self → ℕ };

    /// How many kept entries it has moved since it was made.
    ghost moved: { Self → ℕ };

    /// How many kept entries move where those of a range are replaced, by the place of the range and its
    /// length.
    ghost moves: { Self → ℕ → ℕ → ℕ };

    /// How many entries there are.
    fn len(&self) -> usize
        ensures { result ≡ length (list self.now) };

    /// Whether there is no entry.
    final fn is_empty(&self) -> bool
        ensures { IsTrue result ↔ (list self.now ≡ []) }
    {
        self.len() == 0
    }

    /// The entry at `index`.
    fn get(&self, index: usize) -> Option<&T>
        ensures { option_copied result ≡ slice_get (list self.now) index };

    /// How many more entries there is room for.
    fn spare(&self) -> usize
        ensures { result ≡ spare self.now };

    /// Makes room for `extra` more entries. After `Err` the list is as before.
    fn reserve(&mut self, extra: usize) -> Result<(), NoMemory>
        ensures list { list self.new ≡ list self.old }
        ensures ok { OnOk result (extra ≤ spare self.new) }

        // It fails only where room was missing, and the room never shrinks.
        ensures full { OnErr result (spare self.old < extra) }
        ensures room { spare self.old ≤ spare self.new }

        // No entry moves, and a later change moves as many as it would have before.
        ensures still { moved self.new ≡ moved self.old }
        ensures moves { (at remove : ℕ) → moves self.new at remove ≡ moves self.old at remove };

    /// Puts entries in the place of `remove` others, from `at` on, in room that is there, and answers how
    /// many of the entries that are kept it moved.
    fn splice(&mut self, at: usize, remove: usize, new: Vec<T>) -> u64
        requires within { at + remove ≤ length (list self.old) }
        requires room { length new.items ≤ spare self.old }
        ensures list { list self.new ≡ splice (list self.old) at (at + remove) new.items }
        ensures moved { result ≡ moves self.old at remove }
        ensures counted { moved self.new ≡ moved self.old + result }
        ensures room { spare self.old + remove ≤ spare self.new + length new.items };
}
