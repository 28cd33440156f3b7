//! The parts of a definition that have a name.

ghost use Rattle.std.specs.Prelude.{◌≡◌, IfOk, OnOk, map};
ghost use Rattle.x_lex.specs.Places.{lexeme};
ghost use Rattle.x_lookups.specs.Parts.{begun, body_of, closed, defined_by, ended, in_parentheses, inside};
ghost use Rattle.x_lookups.specs.Parts.{kind_of, opened, parts_of, read, read_mark, settled, with_mark};
ghost use Rattle.x_lookups.specs.Parts.{with_name};
ghost use Rattle.x_lookups.specs.Surrounding.{reading_of};

use std::alloc::Global;
use x_item::is_significant;
use x_lex::{Kind, Mark, Token};
use x_text::NoMemory;

/// What a part of a definition is.
#[derive(Clone, Copy, Debug, PartialEq, Eq)]
pub enum PartKind {
    /// A constant.
    Constant,
    /// An enum.
    Enum,
    /// A name in an enum.
    Enumerator,
    /// A struct.
    Struct,
    /// A union.
    Union,
    /// A typedef.
    Typedef,
    /// What a struct or an arm of a union declares, and the discriminant of a union.
    Field,
    /// A program.
    Program,
    /// A version of a program.
    Version,
    /// A procedure of a version.
    Procedure,
}

impl PartKind {
    /// What the definition is that begins with a keyword.
    fn of_definition(mark: Mark) -> Option<PartKind>
        ensures { result ≡ defined_by mark }
    {
        match mark {
            Mark::Const => Some(PartKind::Constant),
            Mark::Enum => Some(PartKind::Enum),
            Mark::Program => Some(PartKind::Program),
            Mark::Struct => Some(PartKind::Struct),
            Mark::Typedef => Some(PartKind::Typedef),
            Mark::Union => Some(PartKind::Union),
            _ => None,
        }
    }

    /// What stands in the body of a keyword.
    fn inside(mark: Mark) -> Option<PartKind>
        ensures { result ≡ inside mark }
    {
        match mark {
            Mark::Enum => Some(PartKind::Enumerator),
            Mark::Struct | Mark::Union => Some(PartKind::Field),
            Mark::Program => Some(PartKind::Version),
            Mark::Version => Some(PartKind::Procedure),
            _ => None,
        }
    }
}

/// A part of a definition that has a name. Its words are told by their indices among the tokens of the item.
#[derive(Clone, Copy, Debug)]
pub struct Part {
    /// What it is.
    pub kind: PartKind,
    /// How many brackets of bodies it stands in.
    pub depth: usize,
    /// The keyword of the body that it stands in, if it is no whole definition.
    pub within: Option<Mark>,
    /// Its first word.
    pub first: usize,
    /// Its name.
    pub name: usize,
    /// Its last word.
    pub last: usize,
}

/// The parts of the definition with these tokens, in the order of their ends: those within a part stand
/// before it.
///
/// # Errors
///
/// [`NoMemory`] where a list could not grow.
pub fn parts_of(alloc: Global, tokens: &[Token]) -> Result<Vec<Part>, NoMemory>
    ensures { IfOk result (λ parts. parts.items ≡ parts_of (map lexeme tokens.now)) }
{
    let mut reader = PartReader {
        parts: Vec::new(alloc),
        outer: Vec::new(alloc),
        body: Body::of(definition_kind(tokens), None),
        before: None,
        last: 0,
    };
    for index in 0..tokens.len() {
        if is_significant(tokens[index].kind) {
            reader.read(index, &tokens[index])?;
        }
    }
    Ok(reader.parts)
}

/// What the definition with these tokens is.
fn definition_kind(tokens: &[Token]) -> Option<PartKind>
    ensures { result ≡ kind_of (map lexeme tokens.now) }
{
    for token in tokens {
        if is_significant(token.kind) {
            return PartKind::of_definition(Mark::of(token.text)?);
        }
    }
    None
}

/// What is known of a part whose words are read.
#[derive(Clone, Copy, Debug)]
struct Begun {
    first: Option<usize>,
    /// The last name so far that can be its own: that of a type may stand before it.
    name: Option<usize>,
    /// Whether that is its name.
    settled: bool,
    /// The keyword of its next body.
    inside: Option<Mark>,
}

/// Nothing is read of a part.
const NOTHING: Begun = Begun {
    first: None,
    name: None,
    settled: false,
    inside: None,
};

impl Begun {
    fn begin(&mut self, index: usize)
        ensures { self.new ≡ begun self.old index }
    {
        if self.first.is_none() {
            self.first = Some(index);
        }
    }

    fn settle(&mut self)
        ensures { self.new ≡ settled self.old }
    {
        self.settled = self.name.is_some();
    }

    fn read_name(&mut self, index: usize)
        ensures { self.new ≡ with_name self.old index }
    {
        self.begin(index);
        if !self.settled {
            self.name = Some(index);
        }
    }

    /// Reads a word that neither opens nor ends anything.
    fn read_mark(&mut self, index: usize, mark: Mark)
        ensures { self.new ≡ with_mark self.old index mark }
    {
        self.begin(index);
        match mark {
            Mark::OpenBracket | Mark::Less | Mark::Equals | Mark::Switch => self.settle(),
            // The value of a case stands before it.
            Mark::Colon => {
                self.name = None;
                self.settled = false;
            }
            _ => {}
        }
        if PartKind::inside(mark).is_some() {
            self.inside = Some(mark);
        }
    }
}

/// A body, or all of a definition, while it is read.
#[derive(Clone, Copy, Debug)]
struct Body {
    /// What its parts are. Those of arguments are not told, nor what stands in them.
    kind: Option<PartKind>,
    /// Its keyword.
    within: Option<Mark>,
    begun: Begun,
}

impl Body {
    fn of(kind: Option<PartKind>, within: Option<Mark>) -> Body
        ensures { result ≡ body_of kind within }
    {
        Body {
            kind,
            within,
            begun: NOTHING,
        }
    }
}

/// The keyword of what stands in parentheses behind a word: behind `switch` that is a union's discriminant.
fn in_parentheses(before: Option<Mark>) -> Option<Mark>
    ensures { result ≡ in_parentheses before }
{
    match before {
        Some(Mark::Switch) => Some(Mark::Union),
        _ => None,
    }
}

/// Reads the words of a definition.
#[derive(Drop)]
struct PartReader {
    parts: Vec<Part>,
    /// The bodies around the one that is read, from the outermost on.
    outer: Vec<Body>,
    body: Body,
    /// The word before, if it is a mark, and its index.
    before: Option<Mark>,
    last: usize,
}

impl PartReader {
    /// Reads a word.
    fn read(&mut self, index: usize, token: &Token) -> Result<(), NoMemory>
        ensures { OnOk result (reading_of self.new ≡ read (reading_of self.old) index (lexeme token.now)) }
    {
        let mark = Mark::of(token.text);
        match mark {
            Some(mark) => self.read_mark(index, mark)?,
            None if token.kind == Kind::Name => self.body.begun.read_name(index),
            None => self.body.begun.begin(index),
        }
        self.before = mark;
        self.last = index;
        Ok(())
    }

    fn read_mark(&mut self, index: usize, mark: Mark) -> Result<(), NoMemory>
        ensures { OnOk result (reading_of self.new ≡ read_mark (reading_of self.old) index mark) }
    {
        match mark {
            Mark::OpenBrace => self.open(self.body.begun.inside),
            Mark::OpenParenthesis => self.open(in_parentheses(self.before)),
            Mark::CloseBrace | Mark::CloseParenthesis => {
                self.finish(self.last)?;
                self.close();
                Ok(())
            }
            Mark::Comma => self.finish(self.last),
            Mark::Semicolon => self.finish(index),
            _ => {
                self.body.begun.read_mark(index, mark);
                Ok(())
            }
        }
    }

    /// Begins the body of a keyword, or of arguments.
    fn open(&mut self, within: Option<Mark>) -> Result<(), NoMemory>
        ensures { OnOk result (reading_of self.new ≡ opened (reading_of self.old) within) }
    {
        self.body.begun.settle();
        let kind = match (self.body.kind, within) {
            (Some(_), Some(mark)) => PartKind::inside(mark),
            _ => None,
        };
        self.outer.push(self.body)?;
        self.body = Body::of(kind, within);
        Ok(())
    }

    /// Ends a part at its last word.
    fn finish(&mut self, last: usize) -> Result<(), NoMemory>
        ensures { OnOk result (reading_of self.new ≡ ended (reading_of self.old) last) }
    {
        let begun = self.body.begun;
        self.body.begun = NOTHING;
        if let Some(kind) = self.body.kind
            && let Some(first) = begun.first
            && let Some(name) = begun.name
        {
            let depth = self.outer.len();
            self.parts.push(Part {
                kind,
                depth,
                within: self.body.within,
                first,
                name,
                last,
            })?;
        }
        Ok(())
    }

    /// Ends a body.
    fn close(&mut self)
        ensures { reading_of self.new ≡ closed (reading_of self.old) }
    {
        if let Some(body) = self.outer.pop() {
            self.body = body;
        }
    }
}
