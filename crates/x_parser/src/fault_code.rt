//! The faults of an item that spells no definition.
ghost use Rattle.std.specs.Prelude.{◌≡◌, ◌<◌, [], map, length, slice_index_or};
ghost use denote.Enum.Declared.{tag_of};
ghost use Rattle.x_parser.specs.contracts.fault_code.FaultCode.{the_type};
ghost use Rattle.x_parser.specs.FaultTexts.{fault_text};
ghost use Rattle.x_parser.specs.Stuck.{code_of};

use x_lex::Kind;

/// What is wrong at a word of an item.
#[derive(Clone, Copy, Debug, PartialEq, Eq)]
pub enum FaultCode {
    /// No definition goes on with this word.
    Syntax,
    /// A byte that begins no token.
    BadByte,
    /// A number that is neither decimal, hexadecimal nor octal.
    BadNumber,
    /// A comment that is not closed.
    OpenComment,
    /// A line for the C preprocessor that is no line marker.
    Directive,
    /// The text ends within a definition.
    Unfinished,
}

/// The number and the name of each code, as they are printed, in the order of [`FaultCode`].
pub const FAULT_TEXTS: [&str; 6] = [
    "10 Syntax",
    "11 BadByte",
    "12 BadNumber",
    "13 OpenComment",
    "14 Directive",
    "15 Unfinished",
];

/// What is printed for the code, by a table in the order of the codes.
fn text_in(table: &[&'static str], code: FaultCode) -> &'static str
    requires { tag_of the_type code < length table.now }
    ensures { result.now ≡ slice_index_or (map (λ text. text.now) table.now) (tag_of the_type code) [] }
{
    table[code as usize]
}

impl FaultCode {
    /// The number and the name that are printed for the code.
    #[tactic(auto, using(crate::proofs::FaultTexts::within, crate::proofs::FaultTexts::text_is))]
    pub fn text(self) -> &'static str
        ensures { result.now ≡ fault_text self }
    {
        text_in(&FAULT_TEXTS, self)
    }

    /// The code of a word, by its kind, where no definition goes on with it.
    pub fn of_word(kind: Kind) -> FaultCode
        ensures { result ≡ code_of kind }
    {
        match kind {
            Kind::BadByte => FaultCode::BadByte,
            Kind::BadNumber => FaultCode::BadNumber,
            Kind::OpenComment => FaultCode::OpenComment,
            Kind::Directive => FaultCode::Directive,
            _ => FaultCode::Syntax,
        }
    }
}
