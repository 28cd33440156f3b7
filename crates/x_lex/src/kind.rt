//! The kinds of tokens.
ghost use Rattle.std.specs.Prelude.{◌≡◌, Some};
ghost use Rattle.x_lex.specs.Names.{kind_name};

use std::fmt;

/// What kind of word a token is.
#[derive(Clone, Copy, Debug, PartialEq, Eq)]
pub enum Kind {
    /// Spaces, tabs and line ends.
    Space,
    /// A comment from `/*` to the first `*/` behind it.
    Comment,
    /// A comment that is never closed: the rest of the text.
    OpenComment,
    /// A line that begins with `%`, without its line feed.
    Percent,
    /// A line that begins with `#` and a number, as the C preprocessor writes it, without its line feed.
    Marker,
    /// Any other line that begins with `#`, without its line feed.
    Directive,
    /// A word that the language keeps for itself.
    Keyword,
    /// Any other word of letters, digits and `_`.
    Name,
    /// A number in decimal, hexadecimal or octal form.
    Number,
    /// What begins as a number does, and is none.
    BadNumber,
    /// A bracket, or one of `, ; : = *`.
    Punct,
    /// A byte that begins no word.
    BadByte,
}

impl Kind {
    /// The name that is printed for the kind.
    pub fn name(self) -> &'static str
        ensures { result.now ≡ kind_name self }
    {
        match self {
            Kind::Space => "Space",
            Kind::Comment => "Comment",
            Kind::OpenComment => "OpenComment",
            Kind::Percent => "Percent",
            Kind::Marker => "Marker",
            Kind::Directive => "Directive",
            Kind::Keyword => "Keyword",
            Kind::Name => "Name",
            Kind::Number => "Number",
            Kind::BadNumber => "BadNumber",
            Kind::Punct => "Punct",
            Kind::BadByte => "BadByte",
        }
    }
}

impl fmt::Display for Kind {
    ghost output = { λ kind. Some (kind_name kind) };

    fn fmt<W: fmt::Write>(&self, f: &mut fmt::Formatter<W>) -> fmt::Result {
        f.write_str(self.name())
    }
}
