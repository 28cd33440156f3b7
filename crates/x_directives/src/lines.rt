//! Lines, and what they are of directives.
ghost use Rattle.std.specs.Prelude.{◌≡◌, ◌<◌, ◌≤◌, ◌+◌, ◌^◌, ◌==◌, ◌&&◌, [], ◌∷◌, ◌++◌, length};
ghost use Rattle.std.specs.Prelude.{true, false, slice_index, option_map, MatchOption};
ghost use Rattle.std.specs.List.{All, prefix_len, take_while, find};
ghost use Rattle.x_lex.specs.Bytes.{is_blank, is_marker, is_word_byte};
ghost use Rattle.x_directives.specs.Directives.{lines, unblanked, is_directive, end_length, is_open, part_of};
ghost use Rattle.x_directives.specs.Directives.{behind_hash, is_inside, is_first, is_passed, remark_goes_on};
ghost use Rattle.x_directives.specs.Directives.{marked_lines};

use crate::comments::{commented_behind, is_bare};
use memchr::memchr;
use std::marker::Model;

/// What a line is of a directive.
#[derive(Clone, Copy, Debug, PartialEq, Eq)]
pub(crate) enum Part {
    /// Nothing.
    Outside,
    /// Its first line.
    First,
    /// A line in which it goes on.
    Later,
}

impl Part {
    /// Whether the line is of a directive.
    pub(crate) fn is_inside(self) -> bool
        ensures { result ≡ is_inside self }
    {
        match self {
            Part::Outside => false,
            Part::First | Part::Later => true,
        }
    }

    /// Whether a directive begins with the line.
    pub(crate) fn is_first(self) -> bool
        ensures { result ≡ is_first self }
    {
        match self {
            Part::First => true,
            Part::Outside | Part::Later => false,
        }
    }
}

/// A line of a text.
#[derive(Clone, Copy, Debug)]
pub(crate) struct Line<'t> {
    /// Where it starts.
    pub(crate) start: usize,
    /// Its bytes, with those that end it.
    pub(crate) bytes: &'t [u8],
    pub(crate) part: Part,
    /// Whether a comment goes on at its start.
    pub(crate) commented: bool,
    ghost fits: { start + length bytes.now < 2 ^ 64 },
}

/// The lines of a text, one after another.
#[derive(Drop)]
pub(crate) struct Lines<'t> {
    rest: &'t [u8],
    /// Where the rest starts.
    start: usize,
    /// Whether a directive goes on in its first line.
    within: bool,
    /// Whether a comment goes on in its first line.
    commented: bool,
}

impl<'t> Model for Lines<'t> {
    ghost use Rattle.std.specs.Prelude.{◌+◌, ◌<◌, ◌^◌, List, length};
    ghost use Rattle.x_directives.specs.Directives.{Marked, marked, lines};

    ghost Value = { List Marked };

    ghost view = { λ l. marked l.within l.commented l.start (lines l.rest.now) };

    ghost invariant = { λ l. l.start + length l.rest.now < 2 ^ 64 };
}

impl<'t> Lines<'t> {
    ghost use Rattle.x_directives.specs.Conditionals.{says_more};
    ghost use Rattle.x_directives.specs.Seen.{seen};

    /// All lines of a text.
    pub(crate) fn of(text: &'t [u8]) -> Self
        ensures { result ≡ marked_lines text.now }
    {
        Lines {
            rest: text,
            start: 0,
            within: false,
            commented: false,
        }
    }

    /// The first of these lines that is more than white space and comments.
    pub(crate) fn first_more(&self) -> Option<Line<'t>>
        ensures { option_map seen result ≡ find says_more self.now }
    {
        let mut lines = self.again();
        'lines: while let Some(line) = lines.next_line() {
            if !is_bare(line.commented, line.bytes) {
                return Some(line);
            }
        }
        None
    }

    /// The same lines.
    fn again(&self) -> Lines<'t>
        ensures { result ≡ self.now }
    {
        Lines {
            rest: self.rest,
            start: self.start,
            within: self.within,
            commented: self.commented,
        }
    }

    /// The next line.
    pub(crate) fn next_line(&mut self) -> Option<Line<'t>>
        ensures { MatchOption result (self.old ≡ []) (λ line. self.old ≡ seen line ∷ self.new) }
    {
        if self.rest.is_empty() {
            return None;
        }
        let (bytes, later) = split_line(self.rest);
        let (start, commented) = (self.start, self.commented);
        let part = part_of(self.within, commented, bytes);
        self.within = goes_on(part, bytes);
        self.commented = remark_goes_on(commented, part, bytes);
        self.start = start + bytes.len();
        self.rest = later;
        Some(Line {
            start,
            bytes,
            part,
            commented,
        })
    }
}

/// Whether no `#` is in the text, and so no directive.
pub fn has_no_hash(text: &[u8]) -> bool
    ensures { result ≡ true → All (λ byte. (byte == 35) ≡ false) text.now }
{
    memchr(b'#', text).is_none()
}

/// What a line is of a directive, where `within` says that one of the line before goes on in it, and
/// `commented` that a comment does.
#[tactic(auto, unfolding(crate::specs::Directives::part_of))]
fn part_of(within: bool, commented: bool, line: &[u8]) -> Part
    ensures { result ≡ part_of within commented line.now }
{
    if within {
        Part::Later
    } else if is_directive(line) && !commented {
        Part::First
    } else {
        Part::Outside
    }
}

/// The first line, with its line feed, and what stands behind it.
fn split_line(text: &[u8]) -> (&[u8], &[u8])
    requires { 0 < length text.now }
    ensures lines { lines text.now ≡ result.0.now ∷ lines result.1.now }
    ensures text { text.now ≡ result.0.now ++ result.1.now }
{
    match memchr(b'\n', text) {
        Some(at) => text.split_at(at + 1),
        None => text.split_at(text.len()),
    }
}

/// How many spaces and tabs stand at the front.
pub(crate) fn blank_length(bytes: &[u8]) -> usize
    ensures within { result ≤ length bytes.now }
    ensures value { result ≡ prefix_len is_blank bytes.now }
{
    bytes
        .iter()
        .take_while(|byte| matches!(byte, b' ' | b'\t'))
        .count()
}

/// What stands behind the spaces and tabs at the front.
#[tactic(auto, unfolding(crate::specs::Directives::unblanked))]
pub(crate) fn unblanked(bytes: &[u8]) -> &[u8]
    ensures { result.now ≡ unblanked bytes.now }
{
    &bytes[blank_length(bytes)..]
}

/// What stands behind the `#` of a directive, and blanks.
#[tactic(auto, unfolding(crate::specs::Directives::behind_hash, crate::specs::Directives::unblanked))]
pub(crate) fn behind_hash(line: &[u8]) -> &[u8]
    ensures { result.now ≡ behind_hash line.now }
{
    match unblanked(line) {
        [_, rest @ ..] => unblanked(rest),
        empty => empty,
    }
}

/// The letters, digits and `_` at the front.
pub(crate) fn word(bytes: &[u8]) -> &[u8]
    ensures { result.now ≡ take_while is_word_byte bytes.now }
{
    &bytes[..word_length(bytes)]
}

pub(crate) fn word_length(bytes: &[u8]) -> usize
    ensures within { result ≤ length bytes.now }
    ensures value { result ≡ prefix_len is_word_byte bytes.now }
{
    bytes
        .iter()
        .take_while(|byte| byte.is_ascii_alphanumeric() || **byte == b'_')
        .count()
}

/// Whether the line is a directive.
#[tactic(auto, unfolding(crate::specs::Directives::is_directive))]
fn is_directive(line: &[u8]) -> bool
    ensures { result ≡ is_directive line.now }
{
    match unblanked(line) {
        [b'#', ..] => !is_marker(line),
        _ => false,
    }
}

/// Whether the line begins with a `#`, and behind it and blanks stands a digit.
#[tactic(auto, unfolding(crate::specs::Directives::unblanked, x_lex::specs::Bytes::is_marker))]
fn is_marker(line: &[u8]) -> bool
    ensures { result ≡ (slice_index line.now 0 == 35 && is_marker line.now) }
{
    match line {
        [b'#', rest @ ..] => match unblanked(rest) {
            [first, ..] => first.is_ascii_digit(),
            [] => false,
        },
        _ => false,
    }
}

/// How many bytes end the line.
#[tactic(auto, unfolding(crate::specs::Directives::end_length))]
pub(crate) fn end_length(line: &[u8]) -> usize
    ensures within { result ≤ length line.now }
    ensures value { result ≡ end_length line.now }
{
    match line {
        [.., b'\r', b'\n'] => 2,
        [.., b'\n'] => 1,
        _ => 0,
    }
}

/// Whether a directive goes on behind the line.
fn goes_on(part: Part, line: &[u8]) -> bool
    ensures { result ≡ (is_inside part && is_open line.now) }
{
    part.is_inside() && is_open(line)
}

/// Whether a comment goes on behind the line.
#[tactic(auto, unfolding(crate::specs::Directives::remark_goes_on))]
fn remark_goes_on(commented: bool, part: Part, line: &[u8]) -> bool
    ensures { result ≡ remark_goes_on commented part line.now }
{
    if is_passed(commented, part, line) {
        false
    } else {
        commented_behind(commented, line)
    }
}

/// Whether the language passes over the line as a whole.
#[tactic(auto, unfolding(crate::specs::Directives::is_passed))]
fn is_passed(commented: bool, part: Part, line: &[u8]) -> bool
    ensures { result ≡ is_passed commented part line.now }
{
    !commented && !part.is_inside() && matches!(line, [b'%' | b'#', ..])
}

/// Whether the last byte before the line's end is a backslash.
#[tactic(auto, unfolding(crate::specs::Directives::is_open))]
pub(crate) fn is_open(line: &[u8]) -> bool
    ensures { result ≡ is_open line.now }
{
    let end = line.len() - end_length(line);
    end > 0 && line[end - 1] == b'\\'
}
