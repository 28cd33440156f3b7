//! The header fields of a message.

ghost use Rattle.std.specs.Prelude.{◌≡◌, ◌≤◌, All, SomeIff, IsTrue, length, map, option_map};
ghost use Rattle.std.specs.Char.{is_ascii_digit};
ghost use Rattle.std.specs.List.{list_all};
ghost use Rattle.std.specs.Str.Parse.{digits_value};
ghost use Rattle.httparse.specs.Spans.{IsHeaderWithin, IsSectionOf, IsSectionWithin, header_bytes};
ghost use Rattle.x_frames.specs.Framing.{announced, is_named, length_field};
ghost use Rattle.x_frames.specs.FrameSteps.{FrontIs};
ghost use Rattle.x_lines.specs.Numbers.{is_number};

use crate::framing::{FrameFault, MOST_HEAD};
use httparse::Status;
use httparse::spans::{EMPTY_HEADER_SPAN, HeaderSpan, parse_headers};

/// The most header fields of a message.
const MOST_FIELDS: usize = 16;

/// The most digits of a length.
const MOST_DIGITS: usize = 9;

/// How many bytes header fields have, with the empty line behind them, and how many they announce.
#[derive(Clone, Copy, Debug)]
pub(crate) struct Head {
    pub(crate) length: usize,
    pub(crate) body: usize,
}

/// Reads the header fields at the front, unless they have not come whole.
pub(crate) fn find_head(bytes: &[u8]) -> Result<Option<Head>, FrameFault>
    ensures { FrontIs result bytes.now }
{
    let mut spans = [EMPTY_HEADER_SPAN; MOST_FIELDS];
    match parse_headers(bytes, &mut spans) {
        Ok(Status::Complete((end, count))) => head_of(bytes, &spans, end, count),
        Ok(Status::Partial) => {
            if bytes.len() > MOST_HEAD {
                Err(FrameFault::Bad)
            } else {
                Ok(None)
            }
        }
        Err(_) => Err(FrameFault::Bad),
    }
}

/// What header fields say that were found.
fn head_of(
    bytes: &[u8],
    spans: &[HeaderSpan],
    end: usize,
    count: usize,
) -> Result<Option<Head>, FrameFault>
    requires room { length spans.now ≡ 16 }
    requires within { IsSectionWithin bytes.now spans.now end count }
    requires section { IsSectionOf bytes.now 0 spans.now (end, count) }
    ensures { FrontIs result bytes.now }
{
    if end > MOST_HEAD {
        return Err(FrameFault::Bad);
    }
    let Some(body) = announced(bytes, &spans[..count]) else {
        return Err(FrameFault::Bad);
    };
    Ok(Some(Head { length: end, body }))
}

/// How many bytes the fields announce.
fn announced(bytes: &[u8], fields: &[HeaderSpan]) -> Option<usize>
    requires { All (IsHeaderWithin (length bytes.now)) fields.now }
    ensures { result ≡ announced (map (header_bytes bytes.now) fields.now) }
{
    number(length_field(bytes, fields)?)
}

/// The value of the first field that is named Content-Length.
fn length_field<'b>(bytes: &'b [u8], fields: &[HeaderSpan]) -> Option<&'b [u8]>
    requires { All (IsHeaderWithin (length bytes.now)) fields.now }
    ensures { option_map (λ v. v.now) result ≡ length_field (map (header_bytes bytes.now) fields.now) }
{
    for field in fields {
        if is_named(field.name.of(bytes), b"content-length") {
            return Some(field.value.of(bytes));
        }
    }
    None
}

/// Whether two names are one but for the case of letters.
fn is_named(name: &[u8], wanted: &[u8]) -> bool
    ensures { result ≡ is_named name.now wanted.now }
{
    if name.len() != wanted.len() {
        return false;
    }
    for at in 0..name.len() {
        if !name[at].eq_ignore_ascii_case(&wanted[at]) {
            return false;
        }
    }
    true
}

/// The number that a value says; `None` is answered of what is no number.
pub fn number(value: &[u8]) -> Option<usize>
    ensures { SomeIff result (IsTrue (is_number value.now)) (digits_value 10 value.now) }
{
    if value.is_empty() || value.len() > MOST_DIGITS || !all_digits(value) {
        return None;
    }
    let mut number = 0;
    for digit in value {
        number = 10 * number + usize::from(*digit - b'0');
    }
    Some(number)
}

fn all_digits(value: &[u8]) -> bool
    ensures { result ≡ list_all is_ascii_digit value.now }
{
    value.iter().all(|byte| byte.is_ascii_digit())
}
