//! How the characters of a line are counted.

ghost use Rattle.std.specs.Prelude.{◌≡◌, ◌≤◌};
ghost use Rattle.x_positions.specs.Encodings.{is_inner, unit, utf8_length};

/// How the characters of a line are counted: `positionEncoding` of LSP.
#[derive(Clone, Copy, Debug, PartialEq, Eq)]
pub enum Encoding {
    /// By the bytes that a character takes.
    Utf8,
    /// By the units of 16 bits that a character takes.
    Utf16,
}

impl Encoding {
    /// The units of the character that begins with a byte. A byte that goes on with a character has none.
    pub(crate) fn unit(self, byte: u8) -> usize
        ensures value { result ≡ unit self byte }
        ensures small { result ≤ 4 }
    {
        if is_inner(byte) {
            return 0;
        }
        match self {
            Encoding::Utf8 => utf8_length(byte),
            Encoding::Utf16 => { if byte < 0xf0 { 1 } else { 2 } }
        }
    }
}

/// Whether a byte goes on with a character of UTF-8.
fn is_inner(byte: u8) -> bool
    ensures { result ≡ is_inner byte }
{
    byte >= 0x80 && byte < 0xc0
}

/// How many bytes a character of UTF-8 has, by its first one.
fn utf8_length(first: u8) -> usize
    ensures value { result ≡ utf8_length first }
    ensures small { result ≤ 4 }
{
    if first < 0x80 {
        1
    } else if first < 0xe0 {
        2
    } else if first < 0xf0 {
        3
    } else {
        4
    }
}
