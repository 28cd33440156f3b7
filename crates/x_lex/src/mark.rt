//! The marks: the words that have one spelling each.
ghost use Rattle.std.specs.Prelude.{◌≡◌, ◌≢◌, ◌<◌, [], ◌∷◌, map, length, slice_index, slice_index_or};
ghost use Rattle.x_lex.specs.Marks.{mark_of, text_of, place_of, punctuation, keyword};

/// A word with one spelling: a keyword (RFC 4506, section 6.4, and RFC 5531, section 12.3; `long` is one of
/// this project) or a punctuation mark of the grammar.
#[derive(Clone, Copy, Debug, PartialEq, Eq)]
pub enum Mark {
    Bool,
    Case,
    Const,
    Default,
    Double,
    Enum,
    Float,
    Hyper,
    Int,
    Long,
    Opaque,
    Program,
    Quadruple,
    String,
    Struct,
    Switch,
    Typedef,
    Union,
    Unsigned,
    Version,
    Void,
    OpenBrace,
    CloseBrace,
    OpenBracket,
    CloseBracket,
    OpenParenthesis,
    CloseParenthesis,
    Less,
    Greater,
    Comma,
    Semicolon,
    Colon,
    Equals,
    Star,
}

/// How each mark is written, in the order of [`Mark`].
const MARKS: [(&[u8], Mark); 34] = [
    (b"bool", Mark::Bool),
    (b"case", Mark::Case),
    (b"const", Mark::Const),
    (b"default", Mark::Default),
    (b"double", Mark::Double),
    (b"enum", Mark::Enum),
    (b"float", Mark::Float),
    (b"hyper", Mark::Hyper),
    (b"int", Mark::Int),
    (b"long", Mark::Long),
    (b"opaque", Mark::Opaque),
    (b"program", Mark::Program),
    (b"quadruple", Mark::Quadruple),
    (b"string", Mark::String),
    (b"struct", Mark::Struct),
    (b"switch", Mark::Switch),
    (b"typedef", Mark::Typedef),
    (b"union", Mark::Union),
    (b"unsigned", Mark::Unsigned),
    (b"version", Mark::Version),
    (b"void", Mark::Void),
    (b"{", Mark::OpenBrace),
    (b"}", Mark::CloseBrace),
    (b"[", Mark::OpenBracket),
    (b"]", Mark::CloseBracket),
    (b"(", Mark::OpenParenthesis),
    (b")", Mark::CloseParenthesis),
    (b"<", Mark::Less),
    (b">", Mark::Greater),
    (b",", Mark::Comma),
    (b";", Mark::Semicolon),
    (b":", Mark::Colon),
    (b"=", Mark::Equals),
    (b"*", Mark::Star),
];

/// The byte at a place, or 0 behind the last.
#[inline]
fn byte_at(bytes: &[u8], index: usize) -> u8
    ensures { result ≡ slice_index bytes.now index }
{
    bytes.get(index).copied().unwrap_or(0)
}

/// The mark that is this byte alone, if one is.
#[inline]
#[tactic(auto, unfolding(crate::specs::Marks::punctuation))]
fn punctuation(byte: u8) -> Option<Mark>
    ensures { result ≡ punctuation byte }
{
    let mark = match byte {
        b'{' => Mark::OpenBrace,
        b'}' => Mark::CloseBrace,
        b'[' => Mark::OpenBracket,
        b']' => Mark::CloseBracket,
        b'(' => Mark::OpenParenthesis,
        b')' => Mark::CloseParenthesis,
        b'<' => Mark::Less,
        b'>' => Mark::Greater,
        b',' => Mark::Comma,
        b';' => Mark::Semicolon,
        b':' => Mark::Colon,
        b'=' => Mark::Equals,
        b'*' => Mark::Star,
        _ => return None,
    };
    Some(mark)
}

/// The one keyword that a word with these first bytes can be.
#[tactic(auto, unfolding(crate::specs::Marks::keyword))]
fn keyword(word: &[u8]) -> Option<Mark>
    ensures { result ≡ keyword word.now }
{
    let (first, rest) = word.split_first()?;
    let mark = match *first {
        b'b' => Mark::Bool,
        b'c' if byte_at(rest, 0) == b'a' => Mark::Case,
        b'c' => Mark::Const,
        b'd' if byte_at(rest, 0) == b'e' => Mark::Default,
        b'd' => Mark::Double,
        b'e' => Mark::Enum,
        b'f' => Mark::Float,
        b'h' => Mark::Hyper,
        b'i' => Mark::Int,
        b'l' => Mark::Long,
        b'o' => Mark::Opaque,
        b'p' => Mark::Program,
        b'q' => Mark::Quadruple,
        b's' if byte_at(rest, 0) == b'w' => Mark::Switch,
        b's' if byte_at(rest, 2) == b'i' => Mark::String,
        b's' => Mark::Struct,
        b't' => Mark::Typedef,
        b'u' if byte_at(rest, 1) == b'i' => Mark::Union,
        b'u' => Mark::Unsigned,
        b'v' if byte_at(rest, 0) == b'e' => Mark::Version,
        b'v' => Mark::Void,
        _ => return None,
    };
    Some(mark)
}

/// How the mark is written, by a table in the order of the marks.
fn text_in(table: &[(&'static [u8], Mark)], mark: Mark) -> &'static [u8]
    requires { place_of mark < length table.now }
    ensures { result.now ≡ slice_index_or (map (λ entry. entry.0.now) table.now) (place_of mark) [] }
{
    table[mark as usize].0
}

impl Mark {
    /// How the mark is written.
    #[tactic(auto, using(crate::proofs::MarkLemmas::within, crate::proofs::MarkLemmas::text_in_table))]
    pub fn text(self) -> &'static [u8]
        ensures { result.now ≡ text_of self }
    {
        text_in(&MARKS, self)
    }

    /// The mark that is this byte alone, if one is.
    #[inline]
    #[tactic(auto, using(crate::proofs::MarkLemmas::of_byte))]
    pub(crate) fn of_byte(byte: u8) -> Option<Mark>
        ensures { result ≡ mark_of (byte ∷ []) }
    {
        punctuation(byte)
    }

    /// The mark that is written so, if one is.
    pub fn of(text: &[u8]) -> Option<Mark>
        ensures { result ≡ mark_of text.now }
    {
        if text.len() == 1 {
            return Mark::of_byte(text[0]);
        }
        Mark::of_word(text)
    }

    /// The keyword that is written so, if one is.
    #[tactic(auto, using(crate::proofs::MarkLemmas::no_word_left, crate::proofs::MarkLemmas::one_word_left))]
    fn of_word(text: &[u8]) -> Option<Mark>
        requires { length text.now ≢ 1 }
        ensures { result ≡ mark_of text.now }
    {
        let mark = keyword(text)?;
        (mark.text() == text).then_some(mark)
    }
}
