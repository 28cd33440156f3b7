//! A sink that knows why it failed.
ghost use Rattle.std.specs.Prelude.{◌≡◌, Bool, IsTrue};

use crate::Sink;

/// A [`Sink`] that knows of its failure whether its reader has enough.
pub trait Outlet: Sink {
    /// Whether it has failed because nobody reads what it passes on.
    ghost is_closed: { Self → Bool };

    /// Whether it has failed because nobody reads what it passes on, as a pipe whose reader has ended.
    fn is_closed(&self) -> bool
        ensures closed { result ≡ is_closed self.now }
        ensures failed { IsTrue result → IsTrue (Self.state self.now).failed };
}
