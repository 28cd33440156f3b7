//! Where bytes come from.
ghost use Rattle.x_streams.specs.Streams.{Stream, FailsForGood, Takes};

use crate::Broken;

/// Where bytes come from.
pub trait Tap {
    /// The bytes that it has left, where it tells them, and whether it has failed.
    ghost state: { Self → Stream };

    /// Moves bytes from the front of what is left to the front of the buffer, and answers how many: for a
    /// buffer that is not empty 0 only at the end. What the buffer then holds behind them is left open.
    ///
    /// After `Err` none was moved, and the tap has failed for good.
    fn take(&mut self, buffer: &mut [u8]) -> Result<usize, Broken>
        ensures taken { Takes (state self.old) (state self.new) result buffer.new }
        ensures fails { FailsForGood (state self.old) (state self.new) result };
}
