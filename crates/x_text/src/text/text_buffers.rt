//! Two buffers of a text, which edits fill in turn.
ghost use Rattle.std.specs.Prelude.{◌≡◌, [], OnOk};
ghost use Rattle.x_text.specs.Edits.{change_of, edited_by, Judges};

use crate::{Edit, NoMemory, Source, TextFault};
use std::alloc::Global;
use std::marker::Model;
use std::mem;

/// A text, and beside it a second buffer, in which the text that an edit leaves is made ready.
///
/// [`TextBuffers::turn`] exchanges the two. So each text is written over the one before the last: what is
/// known to be the same stays there, and new memory is taken only to grow.
#[derive(Debug, Drop)]
pub struct TextBuffers {
    text: Source,
    ready: Source,
    /// How many first bytes are known to be the same in both.
    shared: usize,
}

impl Model for TextBuffers {
    ghost use Rattle.x_text.specs.Buffers.{Buffered, IsShared};

    ghost Value = { Buffered };

    ghost view = { λ b. record { text = b.text; ready = b.ready } };

    ghost invariant = { λ b. IsShared b.text b.ready b.shared };
}

impl TextBuffers {
    /// The buffers of a text: the second is empty, and takes no memory yet.
    pub fn of(alloc: Global, text: Source) -> TextBuffers
        ensures { result ≡ record { text = text; ready = [] } }
    {
        TextBuffers {
            text,
            ready: Source::new(alloc),
            shared: 0,
        }
    }

    /// The text.
    pub fn text(&self) -> &Source
        ensures { result.now ≡ self.now.text }
    {
        &self.text
    }

    /// What the second buffer has: after [`TextBuffers::prepare`] the text that the edit leaves.
    pub fn ready(&self) -> &Source
        ensures { result.now ≡ self.now.ready }
    {
        &self.ready
    }

    /// Makes the text that an edit leaves ready in the second buffer, with the faults of [`Source::replace`].
    ///
    /// Copies what stands behind the edit, and before it what the second buffer is not known to have.
    pub fn prepare(&mut self, edit: &Edit) -> Result<(), TextFault>
        ensures ready { OnOk result (self.new.ready ≡ edited_by (change_of self.old.text edit.now)) }
        ensures fault { Judges (change_of self.old.text edit.now) result }
        ensures text { self.new.text ≡ self.old.text }
    {
        self.text.accepts(edit)?;
        let kept = self.shared.min(edit.start);
        match self.ready.write_edited(kept, &self.text, edit) {
            Ok(()) => {
                self.shared = edit.start;
                Ok(())
            }
            Err(NoMemory) => {
                self.shared = kept;
                Err(TextFault::NoMemory)
            }
        }
    }

    /// Exchanges the text and what is ready. It takes no memory.
    pub fn turn(&mut self)
        ensures text { self.new.text ≡ self.old.ready }
        ensures ready { self.new.ready ≡ self.old.text }
    {
        mem::swap(&mut self.text, &mut self.ready);
    }
}
