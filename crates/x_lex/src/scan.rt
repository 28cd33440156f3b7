//! The token at one place.
ghost use Rattle.std.specs.Prelude.{◌≡◌, ◌+◌, ◌-◌, ◌<◌, ◌≤◌, length, drop, slice_index, if◌then◌else◌};
ghost use Rattle.x_streams.specs.Counters.{raised};
ghost use Rattle.x_lex.specs.Bytes.{is_number};
ghost use Rattle.x_lex.specs.Word.{IsToken};
ghost use Rattle.x_lex.specs.Places.{is_line_start, IsTokenAt};
ghost use Rattle.x_lex.specs.Scan.{scan, scan_as, first_close, comment_of, letters, digits, signed, hash};

mod classes;
mod words;

use crate::Kind;
use classes::{is_digit, is_letter, is_punct, is_space, line_len, space_len, word_len};
use memchr::memmem;
pub use words::is_number;
use words::{is_keyword, is_marker};
use x_text::Meter;

/// The comment that opens at the front.
fn comment(rest: &[u8]) -> (Kind, usize)
    requires { 2 ≤ length rest.now }
    ensures { result ≡ comment_of (first_close (drop 2 rest.now)) rest.now }
{
    match memmem::find(&rest[2..], b"*/") {
        Some(place) => (Kind::Comment, place + 4),
        None => (Kind::OpenComment, rest.len()),
    }
}

/// The keyword or name at the front.
fn name(rest: &[u8]) -> (Kind, usize)
    ensures { result ≡ scan_as letters rest.now }
{
    let len = word_len(rest);
    let kind = if is_keyword(&rest[..len]) {
        Kind::Keyword
    } else {
        Kind::Name
    };
    (kind, len)
}

fn number_kind(word: &[u8]) -> Kind
    ensures { result ≡ (if is_number word.now then Kind.Number else Kind.BadNumber) }
{
    if is_number(word) {
        Kind::Number
    } else {
        Kind::BadNumber
    }
}

/// The number at the front that begins with a digit.
fn number(rest: &[u8]) -> (Kind, usize)
    ensures { result ≡ scan_as digits rest.now }
{
    let len = word_len(rest);
    (number_kind(&rest[..len]), len)
}

/// The number at the front that begins with `-`.
fn signed_number(rest: &[u8]) -> (Kind, usize)
    requires { 0 < length rest.now }
    ensures { result ≡ scan_as signed rest.now }
{
    let len = 1 + word_len(&rest[1..]);
    (number_kind(&rest[..len]), len)
}

/// The line at the front that begins with `#`.
fn hash_line(rest: &[u8]) -> (Kind, usize)
    requires { slice_index rest.now 0 ≡ 35 }
    ensures { result ≡ scan_as hash rest.now }
{
    let len = line_len(rest);
    let kind = if is_marker(&rest[..len]) {
        Kind::Marker
    } else {
        Kind::Directive
    };
    (kind, len)
}

/// The second byte, or 0 where there is none.
fn second(rest: &[u8]) -> u8
    ensures { result ≡ slice_index rest.now 1 }
{
    rest.get(1).copied().unwrap_or(0)
}

/// The kind and length of the token at the front.
#[tactic(auto, unfolding(crate::specs::Scan::scan, crate::specs::Scan::class_of))]
fn first_token(rest: &[u8], line_start: bool) -> (Kind, usize)
    requires { 0 < length rest.now }
    ensures { result ≡ scan line_start rest.now }
{
    match rest[0] {
        byte if is_space(byte) => (Kind::Space, space_len(rest)),
        byte if is_letter(byte) => name(rest),
        byte if is_digit(byte) => number(rest),
        b'-' if is_digit(second(rest)) => signed_number(rest),
        byte if is_punct(byte) => (Kind::Punct, 1),
        b'/' if second(rest) == b'*' => comment(rest),
        b'%' if line_start => (Kind::Percent, line_len(rest)),
        b'#' if line_start => hash_line(rest),
        _ => (Kind::BadByte, 1),
    }
}

/// The kind and the end of the token that begins at `at`, where `line_start` says whether `at` is 0 or stands
/// behind a line feed.
///
/// Counts one token.
#[inline(always)]
pub fn lex_one(bytes: &[u8], at: usize, line_start: bool, meter: &mut Meter) -> (Kind, usize)
    requires { at < length bytes.now }
    ensures meter { meter.new ≡ record meter.old { lexed = raised meter.old.lexed 1 } }
    ensures after { at < result.1 }
    ensures within { result.1 ≤ length bytes.now }
    ensures token { IsToken result.0 line_start (drop at bytes.now) (result.1 - at) }
    ensures at_place { line_start ≡ is_line_start bytes.now at → IsTokenAt bytes.now result.0 at result.1 }
{
    meter.tick_lexed();
    let (kind, len) = first_token(&bytes[at..], line_start);
    (kind, at + len)
}
