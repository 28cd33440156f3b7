//! Where conditionals stand.
ghost use Rattle.std.specs.Prelude.{◌≡◌, IfOk, option_map};
ghost use Rattle.x_directives.specs.Conditionals.{is_condition, extent, is_guard, conditional_in};
ghost use Rattle.x_directives.specs.Conditionals.{conditionals};
ghost use Rattle.x_directives.specs.Seen.{seen};

use crate::lines::{Line, Lines, blank_length, end_length, has_no_hash};
use crate::words::{directive_word, name_behind};
use std::alloc::Global;
use x_text::NoMemory;

/// The place of a directive `#if`, `#ifdef` or `#ifndef`.
#[derive(Clone, Copy, Debug, PartialEq, Eq)]
pub struct Conditional {
    /// Where its `#` stands.
    pub start: usize,
    /// The place behind its first line, without what ends that line.
    pub end: usize,
}

/// The places of all `#if`, `#ifdef` and `#ifndef` of a text, in order, but for each `#ifndef NAME` that
/// `#define NAME` follows: it has a file read once.
///
/// # Errors
/// Memory ran out.
pub fn conditionals(alloc: Global, text: &[u8]) -> Result<Vec<Conditional>, NoMemory>
    ensures { IfOk result (λ all. all.items ≡ conditionals text.now) }
{
    let mut all = Vec::new(alloc);
    if has_no_hash(text) {
        return Ok(all);
    }
    let mut lines = Lines::of(text);
    'lines: while let Some(line) = lines.next_line() {
        if let Some(conditional) = conditional_in(&line, &lines) {
            all.push(conditional)?;
        }
    }
    Ok(all)
}

/// The place of the conditional that begins with the line, if it is no guard.
#[tactic(auto, unfolding(crate::specs::Conditionals::conditional_in))]
fn conditional_in(line: &Line, later: &Lines) -> Option<Conditional>
    ensures { result ≡ conditional_in (seen line.now) later.now }
{
    if is_condition(directive_word(line)) && !is_guard(line, later.first_more()) {
        Some(extent(line))
    } else {
        None
    }
}

/// Whether the word is one of those whose directives have an `#endif`.
pub(crate) fn is_condition(word: &[u8]) -> bool
    ensures { result ≡ is_condition word.now }
{
    word == b"if".as_slice() || word == b"ifdef".as_slice() || word == b"ifndef".as_slice()
}

/// Whether the line is `#ifndef NAME`, and the next one `#define NAME`.
#[tactic(auto, unfolding(crate::specs::Conditionals::is_guard))]
fn is_guard(line: &Line, next: Option<Line>) -> bool
    ensures { result ≡ is_guard (seen line.now) (option_map seen next.entry) }
{
    let Some(next) = next else {
        return false;
    };
    let name = name_behind(line);
    directive_word(line) == b"ifndef".as_slice()
        && directive_word(&next) == b"define".as_slice()
        && !name.is_empty()
        && name_behind(&next) == name
}

/// The line from its first byte that is no blank on, without what ends it.
fn extent(line: &Line) -> Conditional
    ensures { result ≡ extent (seen line.now) }
{
    Conditional {
        start: line.start + blank_length(line.bytes),
        end: line.start + (line.bytes.len() - end_length(line.bytes)),
    }
}
