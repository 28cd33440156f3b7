//! Bytes of a text as a terminal shows them, and marks as wide as they are.

ghost use Rattle.std.specs.Prelude.{◌≡◌, [], ◌∷◌, ◌++◌, codes, take};
ghost use Rattle.hex.specs.Hex.{encode_lower};
ghost use Rattle.std.specs.List.{flat_map};
ghost use Rattle.x_streams.specs.Writing.{Adds};
ghost use Rattle.x_explain.specs.Explained.{other_tildes};
ghost use Rattle.x_explain.specs.Shown.{blank, columns, is_shown, is_within, shown_byte, tildes};

use hex::encode_to_slice;
use x_text::{Pen, Sink};

/// Whether a byte is shown as itself: a tab, what is printable in ASCII, and in UTF-8 all that is no ASCII.
fn is_shown(byte: u8, is_utf8: bool) -> bool
    ensures { result ≡ is_shown is_utf8 byte }
{
    byte == b'\t' || (32 <= byte && byte <= 126) || (is_utf8 && byte >= 128)
}

/// A byte that is not shown as itself: `\x` and two lower-case hexadecimal digits.
pub fn escape_of(byte: u8) -> [u8; 4]
    ensures { result ≡ codes "\\x" ++ encode_lower (byte ∷ []) }
{
    let [high, low] = digits(byte);
    [b'\\', b'x', high, low]
}

/// The two lower-case hexadecimal digits of a byte.
fn digits(byte: u8) -> [u8; 2]
    ensures { result ≡ encode_lower (byte ∷ []) }
{
    let mut digits = [0; 2];
    let _ = encode_to_slice([byte], &mut digits);
    digits
}

/// Adds a byte as it is shown: as itself, or as `\x` with two hexadecimal digits.
fn add_shown_byte<S: Sink>(byte: u8, is_utf8: bool, pen: &mut Pen, sink: &mut S)
    ensures { Adds pen.old (S.state sink.old) pen.new (S.state sink.new) (shown_byte is_utf8 byte) }
{
    if is_shown(byte, is_utf8) {
        pen.add(&[byte], sink);
    } else {
        pen.add(&escape_of(byte), sink);
    }
}

/// Adds bytes as they are shown.
pub(crate) fn add_shown<S: Sink>(bytes: &[u8], is_utf8: bool, pen: &mut Pen, sink: &mut S)
    ensures { Adds pen.old (S.state sink.old) pen.new (S.state sink.new)
        (flat_map (shown_byte is_utf8) bytes.now) }
{
    for byte in bytes {
        add_shown_byte(*byte, is_utf8, pen, sink);
    }
}

/// Whether a byte of UTF-8 is within a character, which its first byte has the column of.
pub(crate) fn is_within(byte: u8) -> bool
    ensures { result ≡ is_within byte }
{
    128 <= byte && byte <= 191
}

/// How many columns a byte has where it is shown.
fn columns(byte: u8, is_utf8: bool) -> usize
    ensures { result ≡ columns is_utf8 byte }
{
    if !is_shown(byte, is_utf8) {
        4
    } else if is_within(byte) {
        0
    } else {
        1
    }
}

/// Adds spaces as wide as bytes are, and a tab for a tab.
pub(crate) fn add_blanks<S: Sink>(bytes: &[u8], is_utf8: bool, pen: &mut Pen, sink: &mut S)
    ensures { Adds pen.old (S.state sink.old) pen.new (S.state sink.new)
        (flat_map (blank is_utf8) bytes.now) }
{
    for byte in bytes {
        pen.add(blank(*byte, is_utf8), sink);
    }
}

/// Spaces as wide as a byte is, and a tab for a tab.
fn blank(byte: u8, is_utf8: bool) -> &'static [u8]
    ensures { result.now ≡ blank is_utf8 byte }
{
    if byte == b'\t' {
        return b"\t";
    }
    first_of(b"    ", columns(byte, is_utf8))
}

/// Adds marks as wide as bytes are.
pub(crate) fn add_tildes<S: Sink>(bytes: &[u8], is_utf8: bool, pen: &mut Pen, sink: &mut S)
    ensures { Adds pen.old (S.state sink.old) pen.new (S.state sink.new)
        (flat_map (tildes is_utf8) bytes.now) }
{
    for byte in bytes {
        pen.add(first_of(b"~~~~", columns(*byte, is_utf8)), sink);
    }
}

/// Adds marks as wide as a word is, but for its first column.
#[tactic(auto, using(x_text::proofs::Adding::two))]
pub(crate) fn add_other_tildes<S: Sink>(word: &[u8], is_utf8: bool, pen: &mut Pen, sink: &mut S)
    ensures { Adds pen.old (S.state sink.old) pen.new (S.state sink.new)
        (other_tildes is_utf8 word.now) }
{
    if let [first, rest @ ..] = word {
        let others = columns(*first, is_utf8).saturating_sub(1);
        pen.add(first_of(b"~~~", others), sink);
        add_tildes(rest, is_utf8, pen, sink);
    }
}

/// The first so many bytes, or all.
pub(crate) fn first_of(bytes: &[u8], count: usize) -> &[u8]
    ensures { result.now ≡ take count bytes.now }
{
    &bytes[..count.min(bytes.len())]
}
