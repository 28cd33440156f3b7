//! A count of moves that only proofs read.
ghost use Rattle.std.specs.Prelude.{◌≡◌, ℕ, ◌+◌};
ghost use Rattle.std.specs.Borrow.{ftrue};

use std::fmt::{Debug, Error, Formatter, Write};
use std::marker::Model;

/// How many kept entries a list has moved. It takes no byte, and only proofs know the number: no call of
/// [`Moves::count`] is there when a program runs.
#[derive(Drop)]
pub struct Moves {
    pub(crate) ghost total: { ℕ },
}

impl Model for Moves {
    ghost also_owns = { λ _. ftrue };
}

impl Moves {
    /// None yet.
    pub(crate) fn none() -> Moves
        ensures { result.total ≡ 0 }
    {
        Moves {}
    }

    /// One more than these.
    fn and_one(&self) -> Moves
        ensures { result.total ≡ self.now.total + 1 }
    {
        Moves {}
    }

    /// Counts one more.
    pub(crate) fn count(&mut self)
        ensures { self.new.total ≡ self.old.total + 1 }
    {
        *self = self.and_one();
    }

    /// Counts so many more.
    pub(crate) fn count_all(&mut self, count: usize)
        ensures { self.new.total ≡ self.old.total + count }
    {
        for _entry in 0..count {
            self.count();
        }
    }
}

impl Debug for Moves {
    fn fmt<W: Write>(&self, f: &mut Formatter<W>) -> Result<(), Error> {
        f.write_str("Moves")
    }
}
