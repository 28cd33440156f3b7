//! A token as it is kept.
ghost use Rattle.std.specs.Prelude.{◌≡◌, ◌≤◌, ◌<◌, ◌/◌, ◌%◌};
ghost use Rattle.x_text.specs.declared.text.source.TheConstants.{MAX_TEXT};
ghost use Rattle.x_lex.specs.Packed.{kind_of};

use crate::Kind;
use std::marker::Model;
use x_text::{MAX_TEXT, Measured};

/// The kinds in the order of their numbers.
pub(crate) const KINDS: [Kind; 12] = [
    Kind::Space,
    Kind::Comment,
    Kind::OpenComment,
    Kind::Percent,
    Kind::Marker,
    Kind::Directive,
    Kind::Keyword,
    Kind::Name,
    Kind::Number,
    Kind::BadNumber,
    Kind::Punct,
    Kind::BadByte,
];

/// One token of a list, seen as its kind and length: where it stands follows from the ones before it.
///
/// It has four bytes, as a text may have 16 million tokens: 16 times the length, and the number of the kind.
#[derive(Debug, Drop)]
pub(crate) struct TokenEntry {
    packed: u32,
}

const _: () = prove!(size_of::<TokenEntry>() == 4);

impl Model for TokenEntry {
    ghost use Rattle.std.specs.Prelude.{ℕ, ◌<◌, ◌/◌, ◌%◌};
    ghost use Rattle.x_lex.specs.declared.kind.Kind.{Kind};
    ghost use Rattle.x_lex.specs.Packed.{kind_of};

    ghost Value = { Kind × ℕ };

    ghost view = { λ entry. (kind_of (entry.packed % 16), entry.packed / 16) };

    // So that the number is a kind's.
    ghost invariant = { λ entry. entry.packed % 16 < 12 };
}

impl TokenEntry {
    /// The entry of a token of that many bytes.
    pub(crate) fn new(kind: Kind, length: usize) -> TokenEntry
        requires { length ≤ MAX_TEXT }
        ensures { result ≡ (kind, length) }
    {
        TokenEntry {
            packed: (length as u32) * 16 + kind as u32,
        }
    }

    /// The kind of the token, and how many bytes it has.
    pub(crate) fn kind_and_length(&self) -> (Kind, usize)
        ensures { result ≡ self.now }
    {
        (KINDS[(self.packed % 16) as usize], self.length())
    }
}

impl Measured for TokenEntry {
    ghost use Rattle.x_lex.specs.Tiling.{bytes_of};

    ghost length = { bytes_of };

    fn length(&self) -> usize {
        (self.packed / 16) as usize
    }
}
