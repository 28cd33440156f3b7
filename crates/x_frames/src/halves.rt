//! Halves of pairs of surrogates in a message: JSON may have the escape of one without the other, but there
//! is no character for it (RFC 8259, section 8.2).

ghost use Rattle.std.specs.Prelude.{◌≡◌, IfOk, IfSome, Some, slice_index};
ghost use Rattle.serde_json.specs.Read.{read};
ghost use Rattle.serde_json.specs.View.{view};
ghost use Rattle.x_frames.specs.Halves.{behind, is_half, mended, mended_from, put};

use serde_json::Value;
use std::alloc::Global;
use x_text::NoMemory;

/// A message with a question mark in place of each half, if it is JSON then. There is none without memory.
pub fn mended_message(alloc: Global, body: &[u8]) -> Option<Value>
    ensures { IfSome result (λ message. read (mended body.now) ≡ Some (view message)) }
{
    match mended(alloc, body) {
        Ok(bytes) => message_of(alloc, &bytes),
        Err(_) => None,
    }
}

/// The message with this body, if it is JSON.
fn message_of(alloc: Global, body: &[u8]) -> Option<Value>
    ensures { IfSome result (λ message. read body.now ≡ Some (view message)) }
{
    match Value::from_slice(alloc, body) {
        Ok(message) => Some(message),
        Err(_) => None,
    }
}

/// How far an escape of a string has come.
#[derive(Clone, Copy, Debug, PartialEq, Eq)]
enum Escape {
    /// There is none.
    None,
    /// A backslash came.
    Backslash,
    /// A backslash and a `u` came.
    Letter,
    /// One digit of a half came, two, or three.
    One,
    Two,
    Three,
}

impl Escape {
    /// How far it is behind a byte, with this one next to it.
    fn behind(self, byte: u8, next: u8) -> Escape
        ensures { result ≡ behind self byte next }
    {
        match self {
            Escape::None if byte == b'\\' => Escape::Backslash,
            Escape::Backslash if byte == b'u' => Escape::Letter,
            Escape::Letter if is_half(byte, next) => Escape::One,
            Escape::One => Escape::Two,
            Escape::Two => Escape::Three,
            _ => Escape::None,
        }
    }

    /// What a byte becomes, with this one next to it.
    fn put(self, byte: u8, next: u8) -> u8
        ensures { result ≡ put self byte next }
    {
        match self {
            Escape::Letter if is_half(byte, next) => b'0',
            Escape::One => b'0',
            Escape::Two => b'3',
            Escape::Three => b'f',
            _ => byte,
        }
    }
}

/// Whether the digits of a half begin with a digit, and this one next to it.
fn is_half(byte: u8, next: u8) -> bool
    ensures { result ≡ is_half byte next }
{
    (byte == b'D' || byte == b'd')
        && ((b'8'..=b'9').contains(&next)
            || (b'A'..=b'F').contains(&next)
            || (b'a'..=b'f').contains(&next))
}

/// A text of JSON with a question mark in place of each half of a pair of surrogates.
fn mended(alloc: Global, text: &[u8]) -> Result<Vec<u8>, NoMemory>
    ensures { IfOk result (λ bytes. bytes.items ≡ mended text.now) }
{
    let mut bytes = Vec::with_capacity(alloc, text.len())?;
    let mut escape = Escape::None;
    for (at, byte) in text.iter().enumerate() {
        let next = byte_at(text, at + 1);
        bytes.push(escape.put(*byte, next))?;
        escape = escape.behind(*byte, next);
    }
    Ok(bytes)
}

/// The byte at a place, or zero past the end.
fn byte_at(text: &[u8], at: usize) -> u8
    ensures { result ≡ slice_index text.now at }
{
    text.get(at).copied().unwrap_or(0)
}
