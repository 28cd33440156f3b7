//! A sink that keeps a text.

ghost use Rattle.std.specs.Prelude.{◌≡◌, [], Some, false};
ghost use Rattle.std.specs.Io.KnownBytes.{Keeps};
ghost use Rattle.x_streams.specs.Streams.{FailsForGood, Puts};

use std::alloc::Global;
use std::marker::Model;
use x_text::{Broken, Sink};

/// A [`Sink`] that keeps all that it takes, and fails where memory runs out.
#[derive(Drop)]
pub struct TextSink {
    bytes: Vec<u8>,
    failed: bool,
}

impl Model for TextSink {
    ghost use Rattle.std.specs.Prelude.{Some};
    ghost use Rattle.x_streams.specs.Streams.{Stream};

    ghost Value = { Stream };

    ghost view = { λ s. record { bytes = Some s.bytes.items; failed = s.failed } };
}

impl TextSink {
    /// A sink that took nothing.
    pub fn new(alloc: Global) -> TextSink
        ensures { ⟦<TextSink as Sink>⟧.state result ≡ record { bytes = Some []; failed = false } }
    {
        TextSink {
            bytes: Vec::new(alloc),
            failed: false,
        }
    }

    /// The bytes that it took.
    pub fn into_bytes(self) -> Vec<u8>
        ensures { (⟦<TextSink as Sink>⟧.state self).bytes ≡ Some result.items }
    {
        self.bytes
    }
}

impl Sink for TextSink {
    ghost state = { λ s. s };

    fn put(&mut self, bytes: &[u8]) -> Result<usize, Broken>
        ensures taken { Puts self.old self.new result bytes.now }
        ensures fails { FailsForGood self.old self.new result }
    {
        if self.failed || self.bytes.extend_from_slice(bytes).is_err() {
            self.failed = true;
            return Err(Broken);
        }
        Ok(bytes.len())
    }

    fn flush(&mut self) -> Result<(), Broken>
        ensures same { Keeps self.old.bytes self.new.bytes }
        ensures fails { FailsForGood self.old self.new result }
    {
        if self.failed { Err(Broken) } else { Ok(()) }
    }
}
