//! Goes over a list as a patch will leave it.
ghost use Rattle.std.specs.Prelude.{◌≡◌, ◌≤◌, ◌++◌, length, take};
ghost use Rattle.std.specs.Iterator.{YieldsFirstRef, item_count};

use crate::GapIter;
use std::marker::Model;

/// Goes over the entries that a patch will leave of a [`crate::MeasuredSeq`], seen as the list of those that
/// are left.
#[derive(Debug, Drop)]
pub struct PatchedIter<'a, T> {
    /// How many entries of `front` stand in front of the fresh ones.
    kept: usize,
    front: GapIter<'a, T>,
    fresh: &'a [T],
    rear: GapIter<'a, T>,
}

impl<'a, T> Model for PatchedIter<'a, T> {
    ghost use Rattle.std.specs.Prelude.{List, ◌++◌, ◌≤◌, length, take};

    ghost Value = { List T };

    ghost view = { λ walk. take walk.kept walk.front ++ (walk.fresh.now ++ walk.rear) };

    ghost invariant = { λ walk. walk.kept ≤ length walk.front };
}

impl<'a, T> PatchedIter<'a, T> {
    /// Goes over the first `kept` entries of these, then over the fresh ones, and then over the rest.
    pub(crate) fn new(
        kept: usize,
        front: GapIter<'a, T>,
        fresh: &'a [T],
        rear: GapIter<'a, T>,
    ) -> PatchedIter<'a, T>
        requires { kept ≤ length front }
        ensures { result ≡ take kept front.entry ++ (fresh.now ++ rear.entry) }
    {
        PatchedIter {
            kept,
            front,
            fresh,
            rear,
        }
    }
}

impl<'a, T> Iterator for PatchedIter<'a, T> {
    type Item = &'a T;

    ghost next_gives = { YieldsFirstRef (λ left. left) };

    ghost remaining = { item_count (λ left. left) };

    fn next(&mut self) -> Option<&'a T> {
        if self.kept > 0 {
            self.kept -= 1;
            return self.front.next();
        }
        if let Some((first, others)) = self.fresh.split_first() {
            self.fresh = others;
            return Some(first);
        }
        self.rear.next()
    }
}
