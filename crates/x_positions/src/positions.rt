//! Positions, and the lines of a text.

ghost use Rattle.std.specs.Prelude.{◌≡◌, ◌≤◌, drop, length};
ghost use Rattle.x_positions.specs.Positions.{behind_lines, first_line, is_break, line_end, place_within};
ghost use Rattle.x_positions.specs.Positions.{starts_feed};

use crate::encoding::Encoding;
use memchr::memchr2;

/// A position of LSP: a line and a character in it, both counted from 0.
#[derive(Clone, Copy, Debug, PartialEq, Eq)]
pub struct Position {
    /// The line ends before it.
    pub line: usize,
    /// The units of the line before it.
    pub character: usize,
}

/// What stands behind so many line ends.
pub(crate) fn behind_lines(text: &[u8], count: usize) -> &[u8]
    ensures rest { result.now ≡ behind_lines count text.now }
    ensures within { length result.now ≤ length text.now }
{
    let mut rest = text;
    let mut left = count;
    'lines: while left > 0 {
        let Some(end) = line_end(rest) else {
            return &[];
        };
        rest = behind(rest, end);
        left -= 1;
    }
    rest
}

/// Where the first line of a text ends, with its end, if it has one.
pub(crate) fn line_end(rest: &[u8]) -> Option<usize>
    ensures { result ≡ line_end rest.now }
{
    let Some(at) = memchr2(b'\n', b'\r', rest) else {
        return None;
    };
    if rest[at] == b'\r' && starts_feed(behind(rest, at + 1)) {
        return Some(at + 2);
    }
    Some(at + 1)
}

/// What stands behind so many bytes.
pub(crate) fn behind(text: &[u8], count: usize) -> &[u8]
    requires { count ≤ length text.now }
    ensures { result.now ≡ drop count text.now }
{
    text.split_at(count).1
}

fn starts_feed(rest: &[u8]) -> bool
    ensures { result ≡ starts_feed rest.now }
{
    match rest {
        [] => false,
        [first, ..] => *first == b'\n',
    }
}

/// The first line of a text, without its end.
pub(crate) fn first_line(rest: &[u8]) -> &[u8]
    ensures line { result.now ≡ first_line rest.now }
    ensures within { length result.now ≤ length rest.now }
{
    match memchr2(b'\n', b'\r', rest) {
        Some(at) => &rest[..at],
        None => rest,
    }
}

/// How many bytes of the first line of a text are of characters that end within so many units.
pub(crate) fn place_within(encoding: Encoding, rest: &[u8], units: usize) -> usize
    ensures place { result ≡ place_within encoding (first_line rest.now) units }
    ensures within { result ≤ length rest.now }
{
    let mut left = units;
    for at in 0..rest.len() {
        let unit = encoding.unit(rest[at]);
        if is_break(rest[at]) || unit > left {
            return at;
        }
        left -= unit;
    }
    rest.len()
}

/// Whether a byte is one of a line end.
fn is_break(byte: u8) -> bool
    ensures { result ≡ is_break byte }
{
    byte == b'\n' || byte == b'\r'
}
