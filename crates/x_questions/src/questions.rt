//! What is answered to questions about a place in a document.

ghost use Rattle.std.specs.Prelude.{◌≡◌, false, true, IfErr, IfOk, IsPermutation};
ghost use Rattle.serde_json.specs.View.{view};
ghost use Rattle.serde_json.specs.Written.{has_float};
ghost use Rattle.x_frames.specs.Lives.{is_of_question};
ghost use Rattle.x_questions.specs.Refusing.{RefusesUnparsed};

use crate::completion::completion;
use crate::hover::hover;
use crate::locations::{Told, name_unparsed, place_value, places_value, range_of};
use crate::open_text::OpenText;
use crate::params::{declared_in, new_name_in};
use crate::renaming::{rename, renamed_range};
use serde_json::Value;
use std::alloc::Global;
use x_frames::{ErrorCode, PositionQuestion};
use x_lex::Token;
use x_lookups::{definition_at, references_at, unparsed_use_at};
use x_positions::{Encoding, Places};
use x_text::NoMemory;

/// The result of a question about a place in a document, if its parameters name one.
///
/// # Errors
///
/// What the request is refused for: its parameters, a new name, or want of memory.
pub fn answer_about_place(
    alloc: Global,
    encoding: Encoding,
    document: &OpenText,
    place: Option<usize>,
    question: PositionQuestion,
    params: Option<&Value>,
) -> Result<Value, ErrorCode>
    ensures value { IfOk result (λ v. has_float (view v) ≡ false) }
    ensures code { IfErr result (λ code. is_of_question code ≡ true) }
{
    let Some(at) = place else {
        return Err(ErrorCode::InvalidParams);
    };
    match question {
        PositionQuestion::Definition => Ok(definition(alloc, encoding, document, at)?),
        PositionQuestion::References => match declared_in(params) {
            Some(declared) => references(alloc, encoding, document, at, declared),
            None => Err(ErrorCode::InvalidParams),
        },
        PositionQuestion::Highlights => {
            Ok(uses(alloc, encoding, document, at, true, Told::Highlight)?)
        }
        PositionQuestion::Hover => Ok(hover(alloc, encoding, document, at)?),
        PositionQuestion::Completion => Ok(completion(alloc, document, at)?),
        PositionQuestion::PrepareRename => Ok(renamed_range(alloc, encoding, document, at)?),
        PositionQuestion::Rename => match new_name_in(params) {
            Some(name) => rename(alloc, encoding, document, at, name),
            None => Err(ErrorCode::InvalidParams),
        },
    }
}

/// Where the name at a place is declared first; null where it is not.
fn definition(
    alloc: Global,
    encoding: Encoding,
    document: &OpenText,
    at: usize,
) -> Result<Value, NoMemory>
    ensures { IfOk result (λ v. has_float (view v) ≡ false) }
{
    match definition_at(alloc, &document.compiled.session, at)? {
        Some(token) => {
            let mut places = Places::of(encoding, document.shown.bytes());
            let range = range_of(&mut places, &token);
            place_value(alloc, document, &range, Told::Location)
        }
        None => Ok(Value::Null),
    }
}

/// Where the name at a place is used, and if asked for, where it is declared; refused where it stands in what
/// does not parse.
fn references(
    alloc: Global,
    encoding: Encoding,
    document: &OpenText,
    at: usize,
    declared: bool,
) -> Result<Value, ErrorCode>
    ensures value { IfOk result (λ v. has_float (view v) ≡ false) }
    ensures code { IfErr result (λ code. is_of_question code ≡ true) }
    ensures refused { RefusesUnparsed document.now.compiled.now.session document.now.shown.now at result }
{
    match unparsed_use_at(alloc, &document.compiled.session, at)? {
        Some(token) => Err(name_unparsed(encoding, document, &token)),
        None => Ok(uses(alloc, encoding, document, at, declared, Told::Location)?),
    }
}

/// Where the name at a place is used, and if asked for, where it is declared.
fn uses(
    alloc: Global,
    encoding: Encoding,
    document: &OpenText,
    at: usize,
    declared: bool,
    told: Told,
) -> Result<Value, NoMemory>
    ensures { IfOk result (λ v. has_float (view v) ≡ false) }
{
    let mut tokens = references_at(alloc, &document.compiled.session, at, declared)?;
    put_in_order(&mut tokens);
    places_value(alloc, encoding, document, &tokens, told)
}

/// Puts tokens in the order of the text, so that one walk over it finds the places of all.
fn put_in_order(tokens: &mut Vec<Token>)
    ensures { IsPermutation tokens.old.items tokens.new.items }
{
    tokens.sort_unstable_by_key(|token| token.start);
}
