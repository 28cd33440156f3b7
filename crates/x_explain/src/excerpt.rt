//! The line of a text in which a token stands, and as much of it as is shown.

ghost use Rattle.std.specs.Prelude.{◌≡◌, ◌==◌, ◌-◌, true, false, drop, length};
ghost use Rattle.std.specs.List.{before_first};
ghost use Rattle.x_explain.specs.Excerpts.{begins_control, cut, cut_front, cut_rear, excerpt, has_control};
ghost use Rattle.x_explain.specs.Excerpts.{is_utf8, line_front};
ghost use Rattle.x_explain.specs.Excerpts.{line_rear, shown, view_excerpt, without_part, without_return};
ghost use Rattle.std.specs.Str.Lossy.{utf8_valid_len};

use crate::shown::{first_of, is_within};
use memchr::memchr;
use std::str;

/// A line of over so many bytes is cut.
const MOST_SHOWN: usize = 100;

/// So many bytes of it show that, also where the last is a carriage return.
const MOST_SEEN: usize = 102;

/// How many bytes are shown of a line that is cut, before the word and from it on.
const SHOWN_BEFORE: usize = 40;

const SHOWN_AFTER: usize = 60;

/// So many bytes of the latter lack no more than a character that is cut.
const LEAST_AFTER: usize = 57;

/// What is shown of a line.
#[derive(Clone, Copy, Debug)]
pub(crate) struct Excerpt<'t> {
    /// The bytes before the word.
    pub(crate) front: &'t [u8],
    /// The bytes from the word on.
    pub(crate) rear: &'t [u8],
    /// Whether bytes before these are not shown.
    pub(crate) lacks_before: bool,
    /// Whether bytes after these are not shown.
    pub(crate) lacks_after: bool,
    /// Whether what is no ASCII is UTF-8, and shown so.
    pub(crate) utf8: bool,
}

/// What is shown of the line in which a place has this column, counted from 1.
pub(crate) fn excerpt_at(text: &[u8], start: usize, column: u32) -> Excerpt<'_>
    ensures { view_excerpt result ≡ excerpt text.now start column }
{
    let front = line_front(text, start, column as usize);
    let rear = line_rear(text, start);
    if front.len() + rear.len() > MOST_SHOWN {
        long(front, rear)
    } else {
        shown(front, rear, false, false)
    }
}

/// The line's bytes before a place.
fn line_front(text: &[u8], start: usize, column: usize) -> &[u8]
    ensures { result.now ≡ line_front text.now start column }
{
    last_of(first_of(text, start), column.saturating_sub(1))
}

/// The line's bytes from the place on, but no more than show that it is long.
fn line_rear(text: &[u8], start: usize) -> &[u8]
    ensures { result.now ≡ line_rear text.now start }
{
    let rest = text.get(start..).unwrap_or(&[]);
    without_return(first_line(first_of(rest, MOST_SEEN)))
}

/// The bytes before the first line feed.
#[tactic(auto, using(crate::proofs::ExcerptLemmas::byte_found))]
fn first_line(text: &[u8]) -> &[u8]
    ensures { result.now ≡ before_first (λ b. b == 10) text.now }
{
    match memchr(b'\n', text) {
        Some(at) => &text[..at],
        None => text,
    }
}

/// A line without the carriage return at its end.
fn without_return(line: &[u8]) -> &[u8]
    ensures { result.now ≡ without_return line.now }
{
    line.strip_suffix(b"\r").unwrap_or(line)
}

/// What is shown of a line by these parts of it.
fn shown<'t>(front: &'t [u8], rear: &'t [u8], lacks_before: bool, lacks_after: bool) -> Excerpt<'t>
    ensures { view_excerpt result ≡ shown front.now rear.now lacks_before lacks_after }
{
    Excerpt {
        front,
        rear,
        lacks_before,
        lacks_after,
        utf8: is_utf8(front) && is_utf8(rear),
    }
}

/// A line of which a part is shown.
fn long<'t>(front: &'t [u8], rear: &'t [u8]) -> Excerpt<'t>
    ensures { view_excerpt result ≡ cut true front.now rear.now }
{
    let before = cut_front(front);
    let after = cut_rear(rear);
    shown(
        before,
        after,
        front.len() > SHOWN_BEFORE,
        rear.len() > SHOWN_AFTER,
    )
}

/// The last bytes before a word, but for a character that is cut.
fn cut_front(front: &[u8]) -> &[u8]
    ensures { result.now ≡ cut_front front.now }
{
    if front.len() <= SHOWN_BEFORE {
        return front;
    }
    let last = last_of(front, SHOWN_BEFORE);
    // A character has three more bytes at most.
    let last = without_part(last);
    let last = without_part(last);
    without_part(last)
}

/// Bytes without the first, if it is within a character.
fn without_part(bytes: &[u8]) -> &[u8]
    ensures { result.now ≡ without_part bytes.now }
{
    match bytes {
        [first, rest @ ..] if is_within(*first) => rest,
        _ => bytes,
    }
}

/// The first bytes from a word on, but for a character that is cut.
fn cut_rear(rear: &[u8]) -> &[u8]
    ensures { result.now ≡ cut_rear rear.now }
{
    if rear.len() <= SHOWN_AFTER {
        return rear;
    }
    let first = first_of(rear, SHOWN_AFTER);
    let valid = valid_len(first);
    if valid >= LEAST_AFTER {
        first_of(first, valid)
    } else {
        first
    }
}

/// The length of the longest front that is UTF-8.
fn valid_len(bytes: &[u8]) -> usize
    ensures { result ≡ utf8_valid_len bytes.now }
{
    match str::from_utf8(bytes) {
        Ok(text) => text.len(),
        Err(error) => error.valid_up_to(),
    }
}

/// The last so many bytes, or all.
fn last_of(bytes: &[u8], count: usize) -> &[u8]
    ensures { result.now ≡ drop (length bytes.now - count) bytes.now }
{
    &bytes[bytes.len().saturating_sub(count)..]
}

/// Whether a control character beyond ASCII, U+0080 to U+009F, stands in some UTF-8.
fn has_control(bytes: &[u8]) -> bool
    ensures { result ≡ has_control bytes.now }
{
    let mut rest = bytes;
    while let [first, more @ ..] = rest {
        if *first == 0xC2 && begins_control(more) {
            return true;
        }
        rest = more;
    }
    false
}

/// Whether the rest of such a character begins some bytes.
fn begins_control(bytes: &[u8]) -> bool
    ensures { result ≡ begins_control bytes.now }
{
    match bytes {
        [first, ..] => 128 <= *first && *first <= 159,
        [] => false,
    }
}

/// Whether bytes are UTF-8, of which a terminal takes none for an order.
fn is_utf8(bytes: &[u8]) -> bool
    ensures { result ≡ is_utf8 bytes.now }
{
    valid_len(bytes) == bytes.len() && !has_control(bytes)
}
