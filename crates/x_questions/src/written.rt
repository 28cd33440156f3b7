//! Definitions as they are written.

ghost use Rattle.std.specs.Prelude.{◌≡◌, None, map};
ghost use Rattle.x_lex.specs.Places.{lexeme};
ghost use Rattle.x_questions.specs.Writing.{are_before, last_number};

use crate::locations::range_of;
use memchr::memchr_iter;
use std::alloc::Global;
use x_item::{is_significant, next_item};
use x_lex::{Kind, Token};
use x_numbers::number_value;
use x_positions::{Encoding, Places, Range};
use x_session::Session;
use x_text::{NoMemory, Source};

/// The most lines that are told.
const MOST_LINES: usize = 20;

/// The tokens of an item.
pub(crate) fn item_tokens<'s>(
    alloc: Global,
    session: &'s Session,
    item: usize,
) -> Result<Vec<Token<'s>>, NoMemory> {
    let mut tokens = Vec::new(alloc);
    let mut walk = session.tokens();
    for _ in 0..item.saturating_add(1) {
        next_item(&mut tokens, &mut walk)?;
    }
    Ok(tokens)
}

/// Where a definition with these tokens starts, with the comments directly in front of it, and where it ends.
pub(crate) fn definition_span(shown: &Source, tokens: &[Token]) -> Option<(usize, usize)> {
    let start = told_start(shown, tokens)?;
    let mut end = start;
    for token in tokens {
        if is_significant(token.kind) {
            end = token.end;
        }
    }
    Some((start, end))
}

/// Comments behind one another, none of which has an empty line behind it.
#[derive(Clone, Copy, Debug)]
struct Comments {
    /// Where the first starts.
    start: usize,
    /// Whether nothing stands in front of that in its line.
    alone: bool,
    /// The line in which the last ends.
    line: usize,
}

impl Comments {
    /// Whether they stand directly in front of what is in this line. Behind something else in its line a
    /// comment is about that, unless the line goes on.
    fn are_before(self, line: usize) -> bool
        ensures { result ≡ are_before self line }
    {
        line == self.line || (self.alone && line == self.line.saturating_add(1))
    }
}

/// Where the first word of a definition starts, or the first of the comments directly in front of it.
fn told_start(shown: &Source, tokens: &[Token]) -> Option<usize> {
    let mut places = Places::of(Encoding::Utf8, shown.bytes());
    let mut before: Option<Comments> = None;
    for token in tokens {
        if token.kind != Kind::Space {
            let range = range_of(&mut places, token);
            before = before.filter(|comments| comments.are_before(range.start.line));
            if is_significant(token.kind) {
                return Some(before.map_or(token.start, |comments| comments.start));
            }
            before = with_comment(shown.bytes(), before, token, &range);
        }
    }
    None
}

/// The comments in front of what follows a token that is no word.
fn with_comment(
    shown: &[u8],
    before: Option<Comments>,
    token: &Token,
    range: &Range,
) -> Option<Comments> {
    if token.kind != Kind::Comment {
        return None;
    }
    let line = range.end.line;
    Some(match before {
        Some(comments) => Comments { line, ..comments },
        None => Comments {
            start: token.start,
            alone: is_alone(shown, token.start, range.start.character),
            line,
        },
    })
}

/// Whether nothing but blanks stands in front of a place in its line, by how many bytes stand there.
fn is_alone(shown: &[u8], start: usize, bytes: usize) -> bool {
    for byte in shown.get(start.saturating_sub(bytes)..start).unwrap_or(&[]) {
        if *byte != b' ' && *byte != b'\t' {
            return false;
        }
    }
    true
}

/// The number of a program, a version or a procedure with these tokens: the last one in them.
pub(crate) fn number_in(tokens: &[Token]) -> Option<i128>
    ensures { result ≡ last_number None (map lexeme tokens.now) }
{
    let mut number = None;
    for token in tokens {
        if token.kind == Kind::Number {
            number = number_value(token.text);
        }
    }
    number
}

/// What is written from one place to another, or its first lines and two dots.
pub(crate) fn told_lines(
    alloc: Global,
    text: &[u8],
    span: Option<(usize, usize)>,
) -> Result<String, NoMemory> {
    let (lines, is_all) = first_lines(written(text, span));
    let mut told = String::from_utf8_lossy(alloc, lines)?;
    if !is_all {
        told.push_str("\n..")?;
    }
    Ok(told)
}

/// What is written from one place to another.
fn written(text: &[u8], span: Option<(usize, usize)>) -> &[u8] {
    match span {
        Some((start, end)) => text.get(start..end).unwrap_or(&[]),
        None => &[],
    }
}

/// The first lines of what is written, and whether they are all.
fn first_lines(written: &[u8]) -> (&[u8], bool) {
    match memchr_iter(b'\n', written).nth(MOST_LINES - 1) {
        Some(end) => (written.get(..end).unwrap_or(written), false),
        None => (written, true),
    }
}
