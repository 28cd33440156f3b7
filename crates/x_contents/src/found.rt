//! The results of requests, as they are kept until they are written.

ghost use Rattle.std.specs.Prelude.{◌≡◌, length};
ghost use Rattle.x_streams.specs.Writing.{Adds};
ghost use Rattle.x_contents.specs.Kept.{found_text};

use crate::phrased_text::PhrasedText;
use x_text::{Pen, Sink};

/// The result of a request, as JSON.
#[derive(Drop)]
pub enum Found {
    /// It is kept as it is written.
    Text(Vec<u8>),
    /// It is kept with one byte for each phrase.
    Phrased(PhrasedText),
}

impl Found {
    /// The number of bytes that are written.
    pub fn len(&self) -> usize
        ensures { result ≡ length (found_text self.now) }
    {
        match self {
            Found::Text(text) => text.len(),
            Found::Phrased(text) => text.len(),
        }
    }

    /// Writes it.
    pub fn add_to<S: Sink>(&self, pen: &mut Pen, sink: &mut S)
        ensures { Adds pen.old (S.state sink.old) pen.new (S.state sink.new) (found_text self.now) }
    {
        match self {
            Found::Text(text) => pen.add(text, sink),
            Found::Phrased(text) => text.add_to(pen, sink),
        }
    }
}
