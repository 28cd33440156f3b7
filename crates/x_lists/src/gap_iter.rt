//! Goes over a list with a gap.
ghost use Rattle.std.specs.Prelude.{◌≡◌, ◌<◌, ◌^◌, ◌++◌, reverse, drop};
ghost use Rattle.std.specs.Iterator.{YieldsFirstRef, item_count};
ghost use Rattle.x_lists.specs.Lengths.{total_length, length_before};

use super::measured::total_length;
use crate::Measured;
use std::marker::Model;

/// Goes over the entries of a [`crate::GapSeq`] in order, seen as the list of those that are left.
#[derive(Debug, Drop)]
pub struct GapIter<'a, T> {
    front: &'a [T],
    rear: &'a [T],
}

impl<'a, T> Model for GapIter<'a, T> {
    ghost use Rattle.std.specs.Prelude.{List, ◌++◌, reverse};

    ghost Value = { List T };

    ghost view = { λ walk. walk.front.now ++ reverse walk.rear.now };
}

impl<'a, T> GapIter<'a, T> {
    /// Goes over the first entries, and then over the others from the last to the first.
    pub(crate) fn new(front: &'a [T], rear: &'a [T]) -> GapIter<'a, T>
        ensures { result ≡ front.now ++ reverse rear.now }
    {
        GapIter { front, rear }
    }
}

impl<'a, T: Measured> GapIter<'a, T> {
    /// Passes over the next entries, or over all that are left where there are fewer, and answers how long
    /// they are together.
    pub fn pass(&mut self, count: usize) -> usize
        requires short { total_length T.length self.old < 2 ^ 64 }
        ensures left { self.new ≡ drop count self.old }
        ensures length { result ≡ length_before T.length self.old count }
    {
        let (passed, front) = self.front.split_at(count.min(self.front.len()));
        let kept = self.rear.len().saturating_sub(count - passed.len());
        let (rear, others) = self.rear.split_at(kept);
        self.front = front;
        self.rear = rear;
        total_length(passed) + total_length(others)
    }
}

impl<'a, T> Iterator for GapIter<'a, T> {
    type Item = &'a T;

    ghost next_gives = { YieldsFirstRef (λ left. left) };

    ghost remaining = { item_count (λ left. left) };

    fn next(&mut self) -> Option<&'a T> {
        if let Some((first, others)) = self.front.split_first() {
            self.front = others;
            return Some(first);
        }
        let (last, others) = self.rear.split_last()?;
        self.rear = others;
        Some(last)
    }
}
