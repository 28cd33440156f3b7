//! What the spelling of a word says of its kind.
ghost use Rattle.std.specs.Prelude.{◌≡◌, ◌<◌, length};
ghost use Rattle.std.specs.List.{list_all};
ghost use Rattle.x_lex.specs.Bytes.{is_digit, is_octal_digit, is_hex_digit, is_decimal, is_negative};
ghost use Rattle.x_lex.specs.Bytes.{is_octal, is_hex, is_number, is_marker, is_keyword};

use super::classes::{blank_len, is_digit};
use crate::Mark;

pub(crate) fn is_keyword(word: &[u8]) -> bool
    ensures { result ≡ is_keyword word.now }
{
    Mark::of(word).is_some()
}

fn all_digits(word: &[u8]) -> bool
    ensures { result ≡ list_all is_digit word.now }
{
    word.iter().all(|byte| is_digit(*byte))
}

fn is_decimal(word: &[u8]) -> bool
    ensures { result ≡ is_decimal word.now }
{
    match word {
        [b'1'..=b'9', digits @ ..] => all_digits(digits),
        _ => false,
    }
}

fn is_negative(word: &[u8]) -> bool
    ensures { result ≡ is_negative word.now }
{
    match word {
        [b'-', digits @ ..] => is_decimal(digits),
        _ => false,
    }
}

fn all_octal(word: &[u8]) -> bool
    ensures { result ≡ list_all is_octal_digit word.now }
{
    word.iter().all(|byte| matches!(byte, b'0'..=b'7'))
}

fn is_octal(word: &[u8]) -> bool
    ensures { result ≡ is_octal word.now }
{
    match word {
        [b'0', digits @ ..] => all_octal(digits),
        _ => false,
    }
}

fn all_hex(word: &[u8]) -> bool
    ensures { result ≡ list_all is_hex_digit word.now }
{
    word.iter().all(|byte| byte.is_ascii_hexdigit())
}

fn is_hex(word: &[u8]) -> bool
    ensures { result ≡ is_hex word.now }
{
    match word {
        [b'0', b'x' | b'X', digits @ ..] => !digits.is_empty() && all_hex(digits),
        _ => false,
    }
}

/// Whether a word is a number in decimal, octal or hexadecimal form (RFC 4506, section 6.2).
#[tactic(auto, unfolding(crate::specs::Bytes::is_number))]
pub fn is_number(word: &[u8]) -> bool
    ensures { result ≡ is_number word.now }
{
    is_decimal(word) || is_negative(word) || is_octal(word) || is_hex(word)
}

/// Whether behind the `#` that the line begins with, and blanks, stands a digit.
#[tactic(auto, unfolding(crate::specs::Bytes::is_marker))]
pub(crate) fn is_marker(line: &[u8]) -> bool
    requires { 0 < length line.now }
    ensures { result ≡ is_marker line.now }
{
    let rest = &line[1..];
    let blanks = blank_len(rest);
    blanks < rest.len() && is_digit(rest[blanks])
}
