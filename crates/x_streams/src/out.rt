//! A sink over a writer.
ghost use Rattle.std.specs.Prelude.{◌≡◌, ◌↔◌, ◌&&◌, false, IsTrue};

use crate::{Broken, Outlet, Sink};
use std::io::{ErrorKind, Write};

/// A [`Sink`] made of a writer of std. It tells what the writer tells.
///
/// Any error of the writer is a failure, and so is a write that takes nothing of some bytes.
#[derive(Debug, Drop)]
pub struct Out<W> {
    writer: W,
    failed: bool,
    // Whether the writer failed as a pipe does that nobody reads.
    closed: bool,
}

impl<W: Write> Out<W> {
    /// A sink over the writer, which hasn't failed.
    pub fn new(writer: W) -> Out<W>
        ensures { ⟦<Out<W> as Sink>⟧.state result ≡ record { bytes = W.contents writer; failed = false } }
    {
        Out {
            writer,
            failed: false,
            closed: false,
        }
    }

    /// The writer.
    pub fn into_inner(self) -> W
        ensures { W.contents result ≡ (⟦<Out<W> as Sink>⟧.state self).bytes }
    {
        self.writer
    }

    /// Notes that the writer failed, and by what.
    fn fail_by(&mut self, kind: ErrorKind)
        ensures writer { self.new.writer ≡ self.old.writer }
        ensures failed { IsTrue self.new.failed }
        ensures closed { IsTrue self.new.closed ↔ (kind ≡ ErrorKind.BrokenPipe) }
    {
        self.failed = true;
        self.closed = matches!(kind, ErrorKind::BrokenPipe);
    }
}

impl<W: Write> Sink for Out<W> {
    ghost state = { λ s. record { bytes = W.contents s.writer; failed = s.failed } };

    fn put(&mut self, bytes: &[u8]) -> Result<usize, Broken> {
        if self.failed {
            return Err(Broken);
        }
        match self.writer.write(bytes) {
            Ok(count) if count > 0 || bytes.is_empty() => Ok(count),
            Ok(_) => {
                self.failed = true;
                Err(Broken)
            }
            Err(error) => {
                self.fail_by(error.kind());
                Err(Broken)
            }
        }
    }

    fn flush(&mut self) -> Result<(), Broken> {
        if self.failed {
            return Err(Broken);
        }
        match self.writer.flush() {
            Ok(()) => Ok(()),
            Err(error) => {
                self.fail_by(error.kind());
                Err(Broken)
            }
        }
    }
}

impl<W: Write> Outlet for Out<W> {
    ghost is_closed = { λ s. s.failed && s.closed };

    fn is_closed(&self) -> bool {
        self.failed && self.closed
    }
}
