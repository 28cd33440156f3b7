//! The classes of bytes, and how far a run of one class goes.
ghost use Rattle.std.specs.Prelude.{◌≡◌, ◌==◌, ◌<◌, ◌≤◌, length, not, slice_index};
ghost use Rattle.std.specs.List.{prefix_len};
ghost use Rattle.x_lex.specs.Bytes.{is_space, is_digit, is_letter, is_word_byte, is_punct, is_in_line};
ghost use Rattle.x_lex.specs.Bytes.{is_blank};

use crate::Mark;
use memchr::memchr;

pub(crate) fn is_space(byte: u8) -> bool
    ensures { result ≡ is_space byte }
{
    matches!(byte, 9..=13 | b' ')
}

pub(crate) fn is_digit(byte: u8) -> bool
    ensures { result ≡ is_digit byte }
{
    byte.is_ascii_digit()
}

pub(crate) fn is_letter(byte: u8) -> bool
    ensures { result ≡ is_letter byte }
{
    byte.is_ascii_alphabetic() || byte == b'_'
}

/// The bytes of words, each at its own place, among dots: one look at a table takes less than four
/// comparisons.
const WORD_BYTES: &[u8] = b"................................................0123456789......\
.ABCDEFGHIJKLMNOPQRSTUVWXYZ...._.abcdefghijklmnopqrstuvwxyz.....\
................................................................\
................................................................";

/// Whether the byte stands at its place in the table.
fn stands_in(table: &[u8], byte: u8) -> bool
    requires { byte < length table.now }
    ensures { result ≡ not (slice_index table.now byte == 46) }
{
    table[byte as usize] != b'.'
}

fn is_word_byte(byte: u8) -> bool
    ensures { result ≡ is_word_byte byte }
{
    stands_in(WORD_BYTES, byte)
}

pub(crate) fn is_punct(byte: u8) -> bool
    ensures { result ≡ is_punct byte }
{
    Mark::of_byte(byte).is_some()
}

/// How many white bytes `rest` begins with.
pub(crate) fn space_len(rest: &[u8]) -> usize
    ensures { result ≡ prefix_len is_space rest.now }
{
    rest.iter().take_while(|byte| is_space(**byte)).count()
}

/// How many spaces and tabs `rest` begins with.
pub(crate) fn blank_len(rest: &[u8]) -> usize
    ensures { result ≡ prefix_len is_blank rest.now }
{
    rest.iter()
        .take_while(|byte| matches!(byte, b' ' | b'\t'))
        .count()
}

/// How many letters, digits and `_` `rest` begins with.
pub(crate) fn word_len(rest: &[u8]) -> usize
    ensures within { result ≤ length rest.now }
    ensures value { result ≡ prefix_len is_word_byte rest.now }
{
    rest.iter().take_while(|byte| is_word_byte(**byte)).count()
}

/// How many bytes of `rest` stand before its first line feed, or all.
#[tactic(auto, using(crate::proofs::LineLemmas::found_line))]
pub(crate) fn line_len(rest: &[u8]) -> usize
    ensures { result ≡ prefix_len is_in_line rest.now }
{
    memchr(b'\n', rest).unwrap_or(rest.len())
}
