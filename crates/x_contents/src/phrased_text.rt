//! Texts of JSON that are kept with one byte for each phrase of symbols, so that they take little memory.

ghost use Rattle.std.specs.Prelude.{◌≡◌, ◌++◌, [], true, decimal, length, IfOk, OnOk};
ghost use Rattle.std.specs.List.{list_all};
ghost use Rattle.std.specs.Str.Lossy.{utf8_lossy};
ghost use Rattle.serde_json.specs.Data.{string};
ghost use Rattle.serde_json.specs.Written.{compact_text};
ghost use Rattle.x_streams.specs.Writing.{Adds};
ghost use Rattle.x_frames.specs.ListTexts.{ended};
ghost use Rattle.x_contents.specs.Phrases.{Spells, has_comma, is_own, phrase_text, spelt_byte, spelt_out};
ghost use Rattle.x_contents.specs.StringTexts.{is_plain_byte};

use crate::phrases::Phrase;
use crate::string_text::{is_plain, string_text};
use itoa::Buffer;
use std::alloc::Global;
use x_text::{NoMemory, Pen, Sink};

/// A text of JSON, in which each phrase of a symbol is kept as one byte.
#[derive(Drop)]
pub struct PhrasedText {
    bytes: Vec<u8>,
    /// The number of the text's bytes.
    count: usize,
    ghost counted: { count ≡ length (spelt_out bytes.items) },
}

impl PhrasedText {
    /// A text of no bytes, with room for so many that are kept.
    pub(crate) fn with_capacity(alloc: Global, room: usize) -> Result<PhrasedText, NoMemory>
        ensures { IfOk result (λ text. spelt_out text.bytes.items ≡ []) }
    {
        Ok(PhrasedText {
            bytes: Vec::with_capacity(alloc, room)?,
            count: 0,
        })
    }

    /// The number of its bytes.
    pub fn len(&self) -> usize
        ensures { result ≡ length (spelt_out self.now.bytes.items) }
    {
        self.count
    }

    /// Adds what these bytes are kept for, which are so many.
    fn put(&mut self, bytes: &[u8], count: usize) -> Result<(), NoMemory>
        requires { count ≡ length (spelt_out bytes.now) }
        ensures { OnOk result (Spells self.old.bytes.items self.new.bytes.items (spelt_out bytes.now)) }
    {
        let all = self.count.checked_add(count).ok_or(NoMemory)?;
        self.bytes.extend_from_slice(bytes)?;
        self.count = all;
        Ok(())
    }

    /// Adds a phrase.
    pub(crate) fn add_phrase(&mut self, phrase: Phrase) -> Result<(), NoMemory>
        ensures { OnOk result (Spells self.old.bytes.items self.new.bytes.items (phrase_text phrase)) }
    {
        self.put(&[phrase.byte()], phrase.text().len())?;
        Ok(())
    }

    /// Adds bytes of a text of JSON, of which none is a control character.
    pub(crate) fn add(&mut self, bytes: &[u8]) -> Result<(), NoMemory>
        requires { list_all is_own bytes.now ≡ true }
        ensures { OnOk result (Spells self.old.bytes.items self.new.bytes.items bytes.now) }
    {
        self.put(bytes, bytes.len())?;
        Ok(())
    }

    /// Adds a number.
    pub(crate) fn add_number(&mut self, number: usize) -> Result<(), NoMemory>
        ensures { OnOk result (Spells self.old.bytes.items self.new.bytes.items (decimal number)) }
    {
        let mut buffer = Buffer::new();
        self.add(buffer.format(number).as_bytes())?;
        Ok(())
    }

    /// Adds bytes as a string of JSON.
    pub(crate) fn add_string(&mut self, alloc: Global, bytes: &[u8]) -> Result<(), NoMemory>
        ensures { OnOk result (Spells self.old.bytes.items self.new.bytes.items
            (compact_text (string (utf8_lossy bytes.now)))) }
    {
        if is_plain(bytes) {
            return self.add_plain(bytes);
        }
        self.add(&string_text(alloc, bytes)?)?;
        Ok(())
    }

    /// Adds bytes as a string of JSON, where each stands for itself.
    fn add_plain(&mut self, bytes: &[u8]) -> Result<(), NoMemory>
        requires { list_all is_plain_byte bytes.now ≡ true }
        ensures { OnOk result (Spells self.old.bytes.items self.new.bytes.items
            (compact_text (string (utf8_lossy bytes.now)))) }
    {
        self.add(b"\"")?;
        self.add(bytes)?;
        self.add(b"\"")?;
        Ok(())
    }

    /// Adds another text.
    pub(crate) fn add_text(&mut self, other: &PhrasedText) -> Result<(), NoMemory>
        ensures { OnOk result (Spells self.old.bytes.items self.new.bytes.items
            (spelt_out other.now.bytes.items)) }
    {
        self.put(&other.bytes, other.count)?;
        Ok(())
    }

    /// Whether a comma stands at its end.
    fn has_comma(&self) -> bool
        ensures { result ≡ has_comma self.now.bytes.items }
    {
        match self.bytes.last() {
            Some(byte) => *byte == b',',
            None => false,
        }
    }

    /// Ends a list, each entry of which was written with a comma behind it.
    pub(crate) fn end_list(&mut self) -> Result<(), NoMemory>
        ensures { OnOk result (spelt_out self.new.bytes.items ≡ ended (spelt_out self.old.bytes.items)) }
    {
        if self.has_comma() {
            self.bytes.pop();
            self.count = self.count.saturating_sub(1);
        }
        self.add(b"]")?;
        Ok(())
    }

    /// Writes it.
    pub fn add_to<S: Sink>(&self, pen: &mut Pen, sink: &mut S)
        ensures { Adds pen.old (S.state sink.old) pen.new (S.state sink.new)
            (spelt_out self.now.bytes.items) }
    {
        for byte in &self.bytes {
            add_spelt(*byte, pen, sink);
        }
    }
}

/// Writes what a byte is kept for.
fn add_spelt<S: Sink>(byte: u8, pen: &mut Pen, sink: &mut S)
    ensures { Adds pen.old (S.state sink.old) pen.new (S.state sink.new) (spelt_byte byte) }
{
    match Phrase::of(byte) {
        Some(phrase) => pen.add(phrase.text(), sink),
        None => pen.add(&[byte], sink),
    }
}
