//! What is expected at a place of a text, by the words before it.

ghost use Rattle.std.specs.Prelude.{◌≡◌, IfOk, OnOk};
ghost use Rattle.x_lex.specs.Marks.{mark_of};
ghost use Rattle.x_lex.specs.Places.{lexeme};
ghost use Rattle.x_compile.specs.Compile.{tokens_of};
ghost use Rattle.x_session.specs.Session.{Compiles};
ghost use Rattle.x_lookups.specs.Expecting.{ends, expected_behind, expected_in, inmost, is_typed, is_within};
ghost use Rattle.x_lookups.specs.Expecting.{at_start, body_by, expected_at, keywords, last_by, passed};
ghost use Rattle.x_lookups.specs.Expecting.{takes, takes_names};
ghost use Rattle.x_lookups.specs.Surrounding.{around_of};

use std::alloc::Global;
use x_item::{NameKind, is_significant};
use x_lex::{Kind, Mark, Token};
use x_session::Session;
use x_text::NoMemory;

/// What is expected at a place.
#[derive(Clone, Copy, Debug, PartialEq, Eq)]
pub enum Expected {
    /// A definition.
    Definition,
    /// A type.
    Type,
    /// The name of an enum, behind that keyword.
    EnumName,
    /// The name of a struct.
    StructName,
    /// The name of a union.
    UnionName,
    /// What goes on behind `unsigned`.
    Unsigned,
    /// A constant.
    Constant,
    /// An arm of a union.
    Arm,
    /// A version of a program.
    Version,
    /// No word that could be told.
    Nothing,
}

/// The keywords that begin a definition.
const DEFINITIONS: [Mark; 6] = [
    Mark::Const,
    Mark::Enum,
    Mark::Program,
    Mark::Struct,
    Mark::Typedef,
    Mark::Union,
];

/// The keywords that begin a type, or what stands in its place.
const TYPES: [Mark; 14] = [
    Mark::Bool,
    Mark::Double,
    Mark::Enum,
    Mark::Float,
    Mark::Hyper,
    Mark::Int,
    Mark::Long,
    Mark::Opaque,
    Mark::Quadruple,
    Mark::String,
    Mark::Struct,
    Mark::Union,
    Mark::Unsigned,
    Mark::Void,
];

impl Expected {
    /// The keywords that can stand there.
    pub fn keywords(self) -> &'static [Mark]
        ensures { result.now ≡ keywords self }
    {
        match self {
            Expected::Definition => &DEFINITIONS,
            Expected::Type => &TYPES,
            Expected::Unsigned => &[Mark::Hyper, Mark::Int, Mark::Long],
            Expected::Arm => &[Mark::Case, Mark::Default],
            Expected::Version => &[Mark::Version],
            _ => &[],
        }
    }

    /// Whether a name can stand there.
    pub fn takes_names(self) -> bool
        ensures { result ≡ takes_names self }
    {
        match self {
            Expected::Constant | Expected::Type => true,
            Expected::EnumName | Expected::StructName | Expected::UnionName => true,
            Expected::Definition | Expected::Unsigned | Expected::Arm => false,
            Expected::Version | Expected::Nothing => false,
        }
    }

    /// Whether a name can stand there that is declared as this.
    pub fn takes(self, kind: NameKind) -> bool
        ensures { result ≡ takes self kind }
    {
        match self {
            Expected::Constant => matches!(kind, NameKind::Constant),
            Expected::EnumName => matches!(kind, NameKind::Enum),
            Expected::StructName => matches!(kind, NameKind::Struct),
            Expected::UnionName => matches!(kind, NameKind::Union),
            Expected::Type => !matches!(kind, NameKind::Constant | NameKind::Program),
            _ => false,
        }
    }
}

/// What is expected at a place, by the words that end before it; the word that is being typed there is none.
///
/// # Errors
///
/// [`NoMemory`] where a list could not grow.
pub fn expected_at(alloc: Global, session: &Session, at: usize) -> Result<Expected, NoMemory>
    ensures { IfOk result (λ expected. Compiles session.now.known session.now.text
        (λ items. expected ≡ expected_at at (tokens_of items))) }
{
    let mut around = Surroundings::new(alloc);
    for token in session.tokens() {
        if token.start >= at || is_typed(&token, at) {
            break;
        }
        if is_within(&token, at) {
            return Ok(Expected::Nothing);
        }
        if is_significant(token.kind) {
            around.pass(token.text)?;
        }
    }
    Ok(around.expected())
}

/// Whether a token is a word that is being typed at a place within it, or where it ends.
fn is_typed(token: &Token, at: usize) -> bool
    ensures { result ≡ is_typed (lexeme token.now) at }
{
    match token.kind {
        Kind::Keyword | Kind::Name | Kind::Number | Kind::BadNumber => at <= token.end,
        _ => false,
    }
}

/// Whether a place stands within a token of which no part is a word.
fn is_within(token: &Token, at: usize) -> bool
    ensures { result ≡ is_within (lexeme token.now) at }
{
    match token.kind {
        Kind::Comment => at < token.end,
        Kind::OpenComment | Kind::Percent | Kind::Marker | Kind::Directive => at <= token.end,
        _ => false,
    }
}

/// What stands around a place.
#[derive(Drop)]
struct Surroundings {
    /// The keyword in front of each open brace; `switch` for a union.
    bodies: Vec<Mark>,
    /// The last keyword that has a brace behind it, or a name and a brace.
    head: Option<Mark>,
    /// How many parentheses are open.
    parentheses: usize,
    last: Last,
}

/// The last word before a place.
#[derive(Clone, Copy, Debug, PartialEq, Eq)]
enum Last {
    /// None.
    Start,
    /// One with its own spelling.
    Mark(Mark),
    /// Another.
    Other,
}

impl Last {
    /// Of a word behind another. The number of a program, a version or a procedure is no constant's name, so
    /// its `=` counts as none.
    fn of(word: &[u8], before: Last) -> Last
        ensures { result ≡ last_by (mark_of word.now) before }
    {
        match Mark::of(word) {
            Some(Mark::Equals) if before.ends() => Last::Other,
            Some(mark) => Last::Mark(mark),
            None => Last::Other,
        }
    }

    /// Whether it ends a body, or arguments.
    fn ends(self) -> bool
        ensures { result ≡ ends self }
    {
        matches!(self, Last::Mark(Mark::CloseBrace | Mark::CloseParenthesis))
    }
}

/// The keyword of a body that opens behind a word, by the last keyword that a body may stand behind.
fn body_by(before: Last, head: Option<Mark>) -> Mark
    ensures { result ≡ body_by before head }
{
    match (before, head) {
        (Last::Mark(Mark::CloseParenthesis), _) => Mark::Switch,
        (_, None) => Mark::Struct,
        (_, Some(head)) => head,
    }
}

impl Surroundings {
    /// Those of the start of a text.
    fn new(alloc: Global) -> Surroundings
        ensures { around_of result ≡ at_start }
    {
        Surroundings {
            bodies: Vec::new(alloc),
            head: None,
            parentheses: 0,
            last: Last::Start,
        }
    }

    /// Goes over a word.
    fn pass(&mut self, word: &[u8]) -> Result<(), NoMemory>
        ensures { OnOk result (around_of self.new ≡ passed (around_of self.old) word.now) }
    {
        let before = self.last;
        self.last = Last::of(word, before);
        let Last::Mark(mark) = self.last else {
            return Ok(());
        };
        match mark {
            Mark::OpenParenthesis => self.parentheses = self.parentheses.saturating_add(1),
            Mark::CloseParenthesis => self.parentheses = self.parentheses.saturating_sub(1),
            Mark::OpenBrace => self.bodies.push(body_by(before, self.head))?,
            Mark::CloseBrace => {
                self.bodies.pop();
            }
            Mark::Enum | Mark::Struct | Mark::Program | Mark::Version => self.head = Some(mark),
            _ => {}
        }
        Ok(())
    }

    /// What is expected behind the last word.
    fn expected(&self) -> Expected
        ensures { result
            ≡ expected_behind self.now.last self.now.parentheses (inmost self.now.bodies.items) }
    {
        let mark = match self.last {
            Last::Start => return Expected::Definition,
            Last::Other => return Expected::Nothing,
            Last::Mark(mark) => mark,
        };
        match mark {
            Mark::OpenBracket | Mark::Less | Mark::Equals | Mark::Case => Expected::Constant,
            Mark::OpenParenthesis | Mark::Typedef | Mark::Colon => Expected::Type,
            Mark::Comma if self.parentheses > 0 => Expected::Type,
            Mark::Enum => Expected::EnumName,
            Mark::Struct => Expected::StructName,
            Mark::Union => Expected::UnionName,
            Mark::Unsigned => Expected::Unsigned,
            Mark::OpenBrace | Mark::Semicolon => self.expected_in_body(),
            _ => Expected::Nothing,
        }
    }

    /// What is expected at the start of a part of the body around.
    fn expected_in_body(&self) -> Expected
        ensures { result ≡ expected_in (inmost self.now.bodies.items) }
    {
        match self.bodies.last() {
            None => Expected::Definition,
            Some(Mark::Enum) => Expected::Nothing,
            Some(Mark::Switch) => Expected::Arm,
            Some(Mark::Program) => Expected::Version,
            Some(_) => Expected::Type,
        }
    }
}
