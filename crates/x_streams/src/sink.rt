//! Where bytes go to.
ghost use Rattle.x_streams.specs.Streams.{Stream, FailsForGood, Puts};
ghost use Rattle.std.specs.Io.KnownBytes.{Keeps};

use thiserror::Error;

/// A reader or a writer has failed, and goes on failing.
#[derive(Clone, Copy, Debug, PartialEq, Eq, Error)]
#[error("a read or a write failed")]
pub struct Broken;

/// Where text goes.
pub trait Sink {
    /// The bytes that it holds, where it tells them, and whether it has failed.
    ghost state: { Self → Stream };

    /// Takes bytes from the front of these, at least one where there is one, and answers how many.
    ///
    /// After `Err` none was taken, and the sink has failed for good.
    fn put(&mut self, bytes: &[u8]) -> Result<usize, Broken>
        ensures taken { Puts (state self.old) (state self.new) result bytes.now }
        ensures fails { FailsForGood (state self.old) (state self.new) result };

    /// Passes on what it holds back, if it does that. After `Err` it has failed for good.
    fn flush(&mut self) -> Result<(), Broken>
        ensures same { Keeps (state self.old).bytes (state self.new).bytes }
        ensures fails { FailsForGood (state self.old) (state self.new) result };
}
