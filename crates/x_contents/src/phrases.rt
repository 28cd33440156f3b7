//! Phrases that come again and again where symbols are written as JSON.

ghost use Rattle.std.specs.Prelude.{◌≡◌, slice_get};
ghost use Rattle.x_contents.specs.Phrases.{byte_of, phrase_text, phrases};

/// A phrase of a `DocumentSymbol`, by what comes behind it.
#[derive(Clone, Copy, Debug, PartialEq, Eq)]
pub(crate) enum Phrase {
    /// What stands in the symbol.
    Children,
    /// Its kind.
    Kind,
    /// Its name.
    Name,
    /// Its range.
    Range,
    /// The range of its name.
    Selection,
    /// The character at which a range ends.
    End,
    /// The line in which it ends, or starts.
    Line,
    /// The character at which it starts.
    Start,
    /// What follows the range.
    RangeEnd,
}

/// The phrases in their order.
const PHRASES: [Phrase; 9] = [
    Phrase::Children,
    Phrase::Kind,
    Phrase::Name,
    Phrase::Range,
    Phrase::Selection,
    Phrase::End,
    Phrase::Line,
    Phrase::Start,
    Phrase::RangeEnd,
];

impl Phrase {
    /// The byte that it is kept as: its place.
    pub(crate) fn byte(self) -> u8
        ensures { result ≡ byte_of self }
    {
        self as u8
    }

    /// The phrase that is kept as a byte, if one is.
    pub(crate) fn of(byte: u8) -> Option<Phrase>
        ensures { result ≡ slice_get phrases byte }
    {
        PHRASES.get(byte as usize).copied()
    }

    /// How it is written.
    pub(crate) fn text(self) -> &'static [u8]
        ensures { result.now ≡ phrase_text self }
    {
        match self {
            Phrase::Children => b"{\"children\":",
            Phrase::Kind => b",\"kind\":",
            Phrase::Name => b",\"name\":",
            Phrase::Range => b",\"range\":",
            Phrase::Selection => b",\"selectionRange\":",
            Phrase::End => b"{\"end\":{\"character\":",
            Phrase::Line => b",\"line\":",
            Phrase::Start => b"},\"start\":{\"character\":",
            Phrase::RangeEnd => b"}}",
        }
    }
}
