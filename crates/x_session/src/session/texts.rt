//! The texts that are generated of a session's text.

ghost use Rattle.std.specs.Prelude.{◌≡◌, false, length, OnOk};
ghost use Rattle.x_streams.specs.Writing.{Adds, IsWritten};
ghost use Rattle.x_session.specs.Session.{Compiles};
ghost use Rattle.x_compile.specs.Generated.{text_of};

use crate::Session;
use x_gen::Which;
use x_text::{Pen, Sink, WriteFault};

impl Session {
    /// Writes a generated text. After a fault the sink has exactly its first `written` bytes; without one it
    /// still works.
    pub fn write_text<S: Sink>(&self, which: Which, sink: &mut S) -> Result<(), WriteFault>
        ensures written { Compiles self.now.known self.now.text
            (λ items. IsWritten result (S.state sink.old) (S.state sink.new)
            (text_of which self.now.base items)) }
        ensures working { OnOk result ((S.state sink.new).failed ≡ false) }
    {
        x_gen::write_text(which, &self.base, &self.items, sink)
    }

    /// Adds a generated text.
    pub fn add_text<S: Sink>(&self, which: Which, pen: &mut Pen, sink: &mut S)
        ensures { Compiles self.now.known self.now.text
            (λ items. Adds pen.old (S.state sink.old) pen.new (S.state sink.new)
            (text_of which self.now.base items)) }
    {
        x_gen::add_text(which, &self.base, &self.items, pen, sink);
    }

    /// How many bytes a generated text has.
    pub fn text_length(&self, which: Which) -> u128
        ensures { Compiles self.now.known self.now.text
            (λ items. result ≡ length (text_of which self.now.base items)) }
    {
        x_gen::text_length(which, &self.base, &self.items)
    }
}
