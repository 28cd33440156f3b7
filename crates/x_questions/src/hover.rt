//! What is told of a name where a pointer rests on it.

ghost use Rattle.std.specs.Prelude.{◌≡◌, false, IfOk};
ghost use Rattle.serde_json.specs.View.{view};
ghost use Rattle.serde_json.specs.Written.{has_float};

use crate::locations::range_of;
use crate::open_text::OpenText;
use crate::parts_told::told_part;
use crate::written::{definition_span, item_tokens, number_in, told_lines};
use serde_json::{Value, json};
use std::alloc::{AllocError, Global};
use x_lex::Token;
use x_lookups::{FoundName, Size, declared_name_at, names};
use x_positions::{Encoding, Places, range_value};
use x_rules::Meaning;
use x_session::{SchemaFault, Session};
use x_text::NoMemory;

/// A word, and what is told of it.
#[derive(Drop)]
pub(crate) struct ToldWord<'s> {
    pub(crate) token: Token<'s>,
    pub(crate) told: String,
}

/// What is told of the word at a place: a `Hover`. It is null where nothing is told.
pub(crate) fn hover(
    alloc: Global,
    encoding: Encoding,
    document: &OpenText,
    at: usize,
) -> Result<Value, NoMemory>
    ensures { IfOk result (λ v. has_float (view v) ≡ false) }
{
    match told_word(alloc, document, at)? {
        Some(word) => {
            let mut places = Places::of(encoding, document.shown.bytes());
            let range = range_value(alloc, &range_of(&mut places, &word.token))?;
            Ok(hover_value(alloc, word.told.as_str(), range)?)
        }
        None => Ok(Value::Null),
    }
}

/// What is told of the name at a place, or of the part of a definition whose name stands there.
fn told_word<'d>(
    alloc: Global,
    document: &OpenText<'d>,
    at: usize,
) -> Result<Option<ToldWord<'d>>, NoMemory> {
    let session = &document.compiled.session;
    let names = names(alloc, session)?;
    let Some(found) = declared_name_at(alloc, session, &names, at)? else {
        return told_part(alloc, session, at);
    };
    // Of names of C nobody knows the numbers and sizes, nor of what stands on them.
    let tells_meaning = document.compiled.foreign_use(found.token.text)?.is_none();
    let told = told_of(alloc, document, &found, tells_meaning)?;
    Ok(Some(ToldWord {
        token: found.token,
        told,
    }))
}

/// What is told of what stands in a range.
fn hover_value(alloc: Global, told: &str, range: Value) -> Result<Value, AllocError>
    requires { has_float (view range) ≡ false }
    ensures { IfOk result (λ v. has_float (view v) ≡ false) }
{
    let contents = json!(in alloc; {"kind": "plaintext", "value": told})?;
    json!(in alloc; {"contents": contents, "range": range})
}

/// The definition of a name as it is written, with the comments directly in front of it, and what the name
/// means behind an empty line, if that is told.
fn told_of(
    alloc: Global,
    document: &OpenText,
    found: &FoundName,
    tells_meaning: bool,
) -> Result<String, NoMemory> {
    let session = &document.compiled.session;
    let tokens = item_tokens(alloc, session, found.declarer.item)?;
    let span = definition_span(document.shown, &tokens);
    let mut told = told_lines(alloc, session.bytes(), span)?;
    if !tells_meaning {
        return Ok(told);
    }
    if let Some(meaning) = meaning_of(alloc, session, found, &tokens)? {
        told.push_str("\n\n")?;
        told.push_str(meaning.as_str())?;
    }
    Ok(told)
}

/// What a name means whose item has no fault: the number of a constant or a program; of a type its height,
/// and in a text without a fault how many bytes its values take.
fn meaning_of(
    alloc: Global,
    session: &Session,
    found: &FoundName,
    tokens: &[Token],
) -> Result<Option<String>, NoMemory> {
    match session.meaning(&found.declarer) {
        Meaning::Constant(number) => Ok(Some(format!(in alloc; "= {number}")?)),
        Meaning::Type { height, .. } => {
            let told = match size_of_type(alloc, session, found.token.text)? {
                Some(size) => {
                    let size = size.told(alloc)?;
                    format!(in alloc; "{size}, height {height}")?
                }
                None => format!(in alloc; "height {height}")?,
            };
            Ok(Some(told))
        }
        Meaning::Program => match number_in(tokens) {
            Some(number) => Ok(Some(format!(in alloc; "= {number}")?)),
            None => Ok(None),
        },
        Meaning::Bad => Ok(None),
    }
}

/// How many bytes the values of a type take, in a text without a fault.
fn size_of_type(alloc: Global, session: &Session, name: &[u8]) -> Result<Option<Size>, NoMemory> {
    let schema = match session.schema() {
        Ok(schema) => schema,
        Err(SchemaFault::Faulty) => return Ok(None),
        Err(SchemaFault::NoMemory) => return Err(NoMemory),
    };
    match schema.type_named(name) {
        Some(id) => Ok(Some(Size::of_type(alloc, &schema, id)?)),
        None => Ok(None),
    }
}
