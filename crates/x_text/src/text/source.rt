//! The bytes of a text.
ghost use Rattle.std.specs.Prelude.{◌≡◌, ◌↔◌, ◌<◌, ◌≤◌, [], length, take, IfOk, OnOk, OnErr, IsErrOf};
ghost use Rattle.x_text.specs.Edits.{change_of, edited_by, FitsText, Judges};
ghost use Rattle.x_text.specs.Limits.{most_text};
ghost use Rattle.x_text.specs.Text.{line_of, column_of};

use super::edit::{edit_in_room, edited, write_edited};
use crate::{Edit, Lines, NoMemory, TextFault};
use std::alloc::Global;
use std::marker::Model;

/// The greatest length of a text, in bytes.
pub const MAX_TEXT: usize = 16_777_216;

/// The text of a `.x` file: at most [`MAX_TEXT`] bytes.
#[derive(Debug, Drop)]
pub struct Source {
    bytes: Vec<u8>,
}

impl Model for Source {
    ghost use Rattle.std.specs.Prelude.{ℕ, ◌≤◌, List, length};
    ghost use Rattle.x_text.specs.declared.text.source.TheConstants.{MAX_TEXT};

    ghost Value = { List ℕ };

    ghost view = { λ s. s.bytes.items };

    ghost invariant = { λ s. length s.bytes.items ≤ MAX_TEXT };
}

impl Source {
    /// The empty text.
    pub fn new(alloc: Global) -> Source
        ensures { result ≡ [] }
    {
        Source {
            bytes: Vec::new(alloc),
        }
    }

    /// A copy of the bytes: [`TextFault::TooLarge`] for more than [`MAX_TEXT`] of them.
    pub fn from_bytes(alloc: Global, bytes: &[u8]) -> Result<Source, TextFault>
        ensures text { IfOk result (λ s. s ≡ bytes.now) }
        ensures too_large { IsErrOf result TextFault.TooLarge ↔ (most_text < length bytes.now) }
        ensures in_range { IsErrOf result TextFault.BadRange → ⊥ }
    {
        if bytes.len() > MAX_TEXT {
            return Err(TextFault::TooLarge);
        }
        match Vec::from_slice(alloc, bytes) {
            Ok(bytes) => Ok(Source { bytes }),
            Err(_) => Err(TextFault::NoMemory),
        }
    }

    /// The bytes of the text.
    pub fn bytes(&self) -> &[u8]
        ensures text { result.now ≡ self.now }
        ensures small { length self.now ≤ most_text }
    {
        &self.bytes
    }

    /// Carries an edit out: [`TextFault::BadRange`] where its range does not lie within the text, and
    /// [`TextFault::TooLarge`] where the text would have more than [`MAX_TEXT`] bytes, which take no memory.
    /// After a fault the text is as before.
    pub fn replace(&mut self, edit: &Edit) -> Result<(), TextFault>
        ensures text { OnOk result (self.new ≡ edited_by (change_of self.old edit.now)) }
        ensures fault { Judges (change_of self.old edit.now) result }
        ensures err { OnErr result (self.new ≡ self.old) }
    {
        self.accepts(edit)?;
        let more = edit.insert.len().saturating_sub(edit.end - edit.start);
        if self.bytes.reserve(more).is_err() {
            return Err(TextFault::NoMemory);
        }
        edit_in_room(&mut self.bytes, edit);
        Ok(())
    }

    /// The text that an edit would leave, with the faults of [`Source::replace`].
    pub fn edited(&self, alloc: Global, edit: &Edit) -> Result<Source, TextFault>
        ensures text { IfOk result (λ s. s ≡ edited_by (change_of self.now edit.now)) }
        ensures fault { Judges (change_of self.now edit.now) result }
    {
        self.accepts(edit)?;
        match edited(alloc, &self.bytes, edit) {
            Ok(bytes) => Ok(Source { bytes }),
            Err(NoMemory) => Err(TextFault::NoMemory),
        }
    }

    /// Becomes the text that an edit leaves of another, whose first `kept` bytes it has already, which stay.
    /// After [`NoMemory`] it has those alone.
    pub(crate) fn write_edited(
        &mut self,
        kept: usize,
        text: &Source,
        edit: &Edit,
    ) -> Result<(), NoMemory>
        requires fits { FitsText (change_of text.now edit.now) }
        requires before { kept ≤ edit.now.start }
        requires same { take kept self.old ≡ take kept text.now }
        ensures ok { OnOk result (self.new ≡ edited_by (change_of text.now edit.now)) }
        ensures err { OnErr result (self.new ≡ take kept text.now) }
    {
        write_edited(&mut self.bytes, kept, &text.bytes, edit)
    }

    /// Whether the range of an edit lies within the text and the text that it leaves is not too large.
    pub(crate) fn accepts(&self, edit: &Edit) -> Result<(), TextFault>
        ensures fault { Judges (change_of self.now edit.now) result }
        ensures no_memory { IsErrOf result TextFault.NoMemory → ⊥ }
    {
        if edit.start > edit.end || edit.end > self.bytes.len() {
            return Err(TextFault::BadRange);
        }
        if edit.insert.len() > MAX_TEXT - (self.bytes.len() - (edit.end - edit.start)) {
            return Err(TextFault::TooLarge);
        }
        Ok(())
    }

    /// The line and the column of a place, each counted from 1: the line feeds before it, and the bytes since
    /// the last of them.
    ///
    /// It reads the text up to the place: for many places take [`Lines`].
    pub fn line_col(&self, at: usize) -> (u32, u32)
        ensures line { result.0 ≡ line_of self.now at }
        ensures column { result.1 ≡ column_of self.now at }
    {
        Lines::of(self).line_col(at)
    }
}
