//! The constants that directives define.
ghost use Rattle.std.specs.Prelude.{◌≡◌, ◌≤◌, IfOk, length, map, option_map, take, drop};
ghost use Rattle.std.specs.List.{prefix_len, take_while};
ghost use Rattle.x_lex.specs.Bytes.{is_word_byte};
ghost use Rattle.x_directives.specs.Constants.{begins_blank, is_name, is_number_byte, is_remark, constant_of};
ghost use Rattle.x_directives.specs.Constants.{definition_of, without_end, defined_in, defined};
ghost use Rattle.x_directives.specs.Spelling.{spelled};
ghost use Rattle.x_directives.specs.Seen.{seen};

use crate::lines::{
    Line, Lines, behind_hash, end_length, has_no_hash, is_open, unblanked, word_length,
};
use std::alloc::Global;
use x_lex::is_number;
use x_text::NoMemory;

/// A constant that a directive `#define NAME NUMBER` of one line gives.
#[derive(Clone, Copy, Debug)]
pub struct Constant<'t> {
    pub name: &'t [u8],
    /// The number, as it is spelled.
    pub number: &'t [u8],
}

/// The constants that the directives of a text define, in order: a name that is defined twice comes twice.
///
/// # Errors
/// Memory ran out.
pub fn defined<'t>(alloc: Global, text: &'t [u8]) -> Result<Vec<Constant<'t>>, NoMemory>
    ensures { IfOk result (λ all. map spelled all.items ≡ defined text.now) }
{
    let mut all = Vec::new(alloc);
    if has_no_hash(text) {
        return Ok(all);
    }
    let mut lines = Lines::of(text);
    'lines: while let Some(line) = lines.next_line() {
        if let Some(constant) = defined_in(&line) {
            all.push(constant)?;
        }
    }
    Ok(all)
}

/// What the line defines, if it is a directive of one line.
#[tactic(auto, unfolding(crate::specs::Constants::defined_in))]
fn defined_in<'t>(line: &Line<'t>) -> Option<Constant<'t>>
    ensures { option_map spelled result ≡ defined_in (seen line.now) }
{
    if line.part.is_first() && !is_open(line.bytes) {
        definition_of(behind_hash(without_end(line.bytes)))
    } else {
        None
    }
}

#[tactic(auto, unfolding(crate::specs::Constants::without_end))]
fn without_end(line: &[u8]) -> &[u8]
    ensures { result.now ≡ without_end line.now }
{
    &line[..line.len() - end_length(line)]
}

/// The constant that stands behind the word `define`.
#[tactic(auto, unfolding(crate::specs::Constants::definition_of))]
fn definition_of(bytes: &[u8]) -> Option<Constant<'_>>
    ensures { option_map spelled result ≡ definition_of bytes.now }
{
    let (word, behind) = bytes.split_at(word_length(bytes));
    if word == b"define".as_slice() && begins_blank(behind) {
        constant_of(unblanked(behind))
    } else {
        None
    }
}

/// The constant whose name stands at the front.
#[tactic(auto, unfolding(crate::specs::Constants::constant_of))]
fn constant_of(bytes: &[u8]) -> Option<Constant<'_>>
    ensures { option_map spelled result ≡ constant_of bytes.now }
{
    let (name, behind_name) = bytes.split_at(word_length(bytes));
    let numbered = unblanked(behind_name);
    let (number, behind) = numbered.split_at(number_length(numbered));
    if is_name(name)
        && begins_blank(behind_name)
        && is_number(number)
        && is_remark(unblanked(behind))
    {
        Some(Constant { name, number })
    } else {
        None
    }
}

fn begins_blank(bytes: &[u8]) -> bool
    ensures { result ≡ begins_blank bytes.now }
{
    matches!(bytes, [b' ' | b'\t', ..])
}

/// Whether the word is a name: its first byte is a letter.
fn is_name(word: &[u8]) -> bool
    ensures { result ≡ is_name word.now }
{
    matches!(word, [b'A'..=b'Z' | b'a'..=b'z', ..])
}

/// How far a number goes, or a word that runs into one.
fn number_length(bytes: &[u8]) -> usize
    ensures within { result ≤ length bytes.now }
    ensures value { result ≡ prefix_len is_number_byte bytes.now }
{
    bytes
        .iter()
        .take_while(|byte| byte.is_ascii_alphanumeric() || **byte == b'_' || **byte == b'-')
        .count()
}

/// Whether nothing is there, or a comment, of which C has two forms.
fn is_remark(bytes: &[u8]) -> bool
    ensures { result ≡ is_remark bytes.now }
{
    bytes.is_empty() || bytes.starts_with(b"/*") || bytes.starts_with(b"//")
}
