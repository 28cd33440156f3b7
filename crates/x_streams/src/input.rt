//! A tap over a reader.
ghost use Rattle.std.specs.Prelude.{◌≡◌, false};

use crate::{Broken, Tap};
use std::io::Read;

/// A [`Tap`] made of a reader of std. It tells what the reader tells, and any error of the reader is a
/// failure.
#[derive(Debug, Drop)]
pub struct In<R> {
    reader: R,
    failed: bool,
}

impl<R: Read> In<R> {
    /// A tap over the reader, which hasn't failed.
    pub fn new(reader: R) -> In<R>
        ensures { ⟦<In<R> as Tap>⟧.state result ≡ record { bytes = R.remaining reader; failed = false } }
    {
        In {
            reader,
            failed: false,
        }
    }
}

impl<R: Read> Tap for In<R> {
    ghost state = { λ t. record { bytes = R.remaining t.reader; failed = t.failed } };

    fn take(&mut self, buffer: &mut [u8]) -> Result<usize, Broken> {
        if self.failed {
            return Err(Broken);
        }
        match self.reader.read(buffer) {
            Ok(count) => Ok(count),
            Err(_) => {
                self.failed = true;
                Err(Broken)
            }
        }
    }
}
