//! The places of tokens, as LSP writes them.

ghost use Rattle.std.specs.Prelude.{◌≡◌, ◌+◌, ◌≤◌, false, IfOk, length};
ghost use Rattle.serde_json.specs.View.{view};
ghost use Rattle.serde_json.specs.Written.{has_float};
ghost use Rattle.x_text.specs.Limits.{most_text};
ghost use Rattle.x_frames.specs.declared.answers.ErrorCode.TheVariants.{NameUnparsed};
ghost use Rattle.x_positions.specs.Positions.{lines_before, position_of};

use crate::open_text::OpenText;
use serde_json::{Value, json, push};
use std::alloc::Global;
use x_frames::ErrorCode;
use x_lex::Token;
use x_positions::{Encoding, Places, Range, range_value};
use x_text::NoMemory;

/// What is said of each of some tokens.
#[derive(Clone, Copy, Debug, PartialEq, Eq)]
pub(crate) enum Told {
    /// The document, and the range in it: a `Location`.
    Location,
    /// The range alone: a `DocumentHighlight`.
    Highlight,
}

/// The places of tokens of a document, in their order.
pub(crate) fn places_value(
    alloc: Global,
    encoding: Encoding,
    document: &OpenText,
    tokens: &[Token],
    told: Told,
) -> Result<Value, NoMemory>
    ensures { IfOk result (λ v. has_float (view v) ≡ false) }
{
    let mut list = Vec::new(alloc);
    let mut places = Places::of(encoding, document.shown.bytes());
    for token in tokens {
        let range = range_of(&mut places, token);
        push(&mut list, place_value(alloc, document, &range, told)?)?;
    }
    Ok(Value::Array(list))
}

/// The range of a token.
pub(crate) fn range_of(places: &mut Places, token: &Token) -> Range
    ensures start { result.start ≡ position_of places.old.encoding places.old.text token.now.start }
    ensures end { result.end ≡ position_of places.old.encoding places.old.text token.now.end }
    ensures same { places.new ≡ places.old }
{
    Range {
        start: places.position(token.start),
        end: places.position(token.end),
    }
}

/// That a name stands at this token in a definition that does not parse.
pub(crate) fn name_unparsed(encoding: Encoding, document: &OpenText, token: &Token) -> ErrorCode
    ensures { result ≡ NameUnparsed (lines_before document.now.shown.now token.now.start + 1) }
{
    let mut places = Places::of(encoding, document.shown.bytes());
    ErrorCode::NameUnparsed {
        line: places.position(token.start).line + 1,
    }
}

/// A range of a document.
pub(crate) fn place_value(
    alloc: Global,
    document: &OpenText,
    range: &Range,
    told: Told,
) -> Result<Value, NoMemory>
    ensures { IfOk result (λ v. has_float (view v) ≡ false) }
{
    let range = range_value(alloc, range)?;
    match told {
        Told::Location => {
            let uri = document.uri;
            Ok(json!(in alloc; {"range": range, "uri": uri})?)
        }
        Told::Highlight => Ok(json!(in alloc; {"range": range})?),
    }
}
