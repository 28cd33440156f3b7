//! How a name is changed wherever it stands.

ghost use Rattle.std.specs.Prelude.{◌≡◌, false, true, IfErr, IfOk, IfSome};
ghost use Rattle.serde_json.specs.View.{view};
ghost use Rattle.serde_json.specs.Written.{has_float};
ghost use Rattle.x_frames.specs.Lives.{is_of_question};
ghost use Rattle.x_questions.specs.Refusing.{RefusesUnparsed};

use crate::locations::{name_unparsed, range_of};
use crate::open_text::OpenText;
use serde_json::{Value, json};
use std::alloc::{AllocError, Global};
use std::collections::BTreeMap;
use x_frames::{ErrorCode, PlainList};
use x_item::{DeclaredName, Glossary, NameKind, lifted_name};
use x_lex::{Kind, Token, lex_one};
use x_lookups::{
    Sought, declared_name_at, find_names, is_lifted_name, names, unparsed_use, unparsed_use_at,
};
use x_names::{Names, is_beforehand};
use x_positions::{Encoding, Places, range_value};
use x_session::Session;
use x_text::{Meter, NoMemory};

/// The range of the name at a place, if it may be renamed.
pub(crate) fn renamed_range(
    alloc: Global,
    encoding: Encoding,
    document: &OpenText,
    at: usize,
) -> Result<Value, NoMemory>
    ensures { IfOk result (λ v. has_float (view v) ≡ false) }
{
    let session = &document.compiled.session;
    let names = names(alloc, session)?;
    match declared_name_at(alloc, session, &names, at)? {
        Some(found) if !found.declarer.lifted => {
            let mut places = Places::of(encoding, document.shown.bytes());
            Ok(range_value(alloc, &range_of(&mut places, &found.token))?)
        }
        _ => Ok(Value::Null),
    }
}

/// The edits that give the name at a place a new name, wherever it stands: a `WorkspaceEdit`. The names of
/// inline types begin with the name of the type around, and are changed with it.
pub(crate) fn rename(
    alloc: Global,
    encoding: Encoding,
    document: &OpenText,
    at: usize,
    name: &str,
) -> Result<Value, ErrorCode>
    ensures value { IfOk result (λ v. has_float (view v) ≡ false) }
    ensures code { IfErr result (λ code. is_of_question code ≡ true) }
    ensures refused { RefusesUnparsed document.now.compiled.now.session document.now.shown.now at result }
{
    match renamed(alloc, encoding, document, at, name) {
        Ok(renamed) => renamed,
        Err(NoMemory) => Err(ErrorCode::InternalError),
    }
}

/// The edits that give the name at a place a new name, or why it may not be renamed so.
fn renamed(
    alloc: Global,
    encoding: Encoding,
    document: &OpenText,
    at: usize,
    name: &str,
) -> Result<Result<Value, ErrorCode>, NoMemory>
    ensures value { IfOk result (λ r. IfOk r (λ v. has_float (view v) ≡ false)) }
    ensures code { IfOk result (λ r. IfErr r (λ code. is_of_question code ≡ true)) }
    ensures refused { IfOk result (λ r.
        RefusesUnparsed document.now.compiled.now.session document.now.shown.now at r) }
{
    match unparsed_use_at(alloc, &document.compiled.session, at)? {
        Some(token) => Ok(Err(name_unparsed(encoding, document, &token))),
        None => renamed_as_parsed(alloc, encoding, document, at, name),
    }
}

/// The same of a name at a place that stands in no item that does not parse.
fn renamed_as_parsed(
    alloc: Global,
    encoding: Encoding,
    document: &OpenText,
    at: usize,
    name: &str,
) -> Result<Result<Value, ErrorCode>, NoMemory>
    ensures value { IfOk result (λ r. IfOk r (λ v. has_float (view v) ≡ false)) }
    ensures code { IfOk result (λ r. IfErr r (λ code. is_of_question code ≡ true)) }
{
    let session = &document.compiled.session;
    let names = names(alloc, session)?;
    let Some(found) = declared_name_at(alloc, session, &names, at)? else {
        return Ok(Err(ErrorCode::RequestFailed));
    };
    if is_lifted_name(alloc, session, found.token.text)? {
        return Ok(Err(ErrorCode::NameLifted));
    }
    match new_names(alloc, session, &names, found.token.text, name.as_bytes())? {
        Some(new_names) => edits_of_all(alloc, encoding, document, &new_names),
        None => Ok(Err(ErrorCode::RequestFailed)),
    }
}

/// The names that are changed, each with the name that takes its place.
type NewNames = BTreeMap<Vec<u8>, Vec<u8>>;

/// The names that change with one: the name itself, and those of inline types that begin with it. There are
/// none where one of them may not be changed so.
fn new_names(
    alloc: Global,
    session: &Session,
    names: &Names,
    old: &[u8],
    new: &[u8],
) -> Result<Option<NewNames>, NoMemory> {
    if !is_name(new) || !is_free(names, new) {
        return Ok(None);
    }
    let mut new_names = BTreeMap::new(alloc);
    put_name(alloc, &mut new_names, old, new)?;
    if lift_names(alloc, &mut new_names, session, names, old, new)? {
        Ok(Some(new_names))
    } else {
        Ok(None)
    }
}

/// Notes that a name gets a new one.
fn put_name(
    alloc: Global,
    new_names: &mut NewNames,
    old: &[u8],
    new: &[u8],
) -> Result<(), NoMemory> {
    new_names.insert(Vec::from_slice(alloc, old)?, Vec::from_slice(alloc, new)?)?;
    Ok(())
}

/// Adds the names of inline types that begin with a name that gets a new one, in all definitions that declare
/// it, and says whether each of them may be changed so.
fn lift_names(
    alloc: Global,
    new_names: &mut NewNames,
    session: &Session,
    names: &Names,
    old: &[u8],
    new: &[u8],
) -> Result<bool, NoMemory> {
    let mut glossary = Glossary::new(alloc);
    for item in 0..session.item_count() {
        if let Some(definition) = session.definition(item) {
            glossary.read(alloc, definition)?;
            if let Some((old_front, new_front)) = fronts_in(alloc, &glossary.declared, old, new)?
                && !lift_names_in(
                    alloc,
                    new_names,
                    names,
                    &glossary.declared,
                    item,
                    &old_front,
                    &new_front,
                )?
            {
                return Ok(false);
            }
        }
    }
    Ok(true)
}

/// Adds those that an item declares which begin with some bytes.
fn lift_names_in(
    alloc: Global,
    new_names: &mut NewNames,
    names: &Names,
    declared: &[DeclaredName],
    item: usize,
    old_front: &[u8],
    new_front: &[u8],
) -> Result<bool, NoMemory> {
    for name in declared {
        let lifted = name.name.as_slice();
        if is_lifted_in(names, lifted, item)
            && let Some(rear) = lifted.strip_prefix(old_front)
        {
            let mut new_name = Vec::from_slice(alloc, new_front)?;
            new_name.extend_from_slice(rear)?;
            if !is_free(names, &new_name) {
                return Ok(false);
            }
            put_name(alloc, new_names, lifted, &new_name)?;
        }
    }
    Ok(true)
}

/// Whether a name is declared first by an inline type in an item.
fn is_lifted_in(names: &Names, name: &[u8], item: usize) -> bool {
    match names.first(name) {
        Some(first) => first.lifted && first.item == item,
        None => false,
    }
}

/// What the names of inline types begin with in a definition that declares these names, one of them as a type
/// of the old name, and what they begin with under its new name.
fn fronts_in(
    alloc: Global,
    declared: &[DeclaredName],
    old: &[u8],
    new: &[u8],
) -> Result<Option<(Vec<u8>, Vec<u8>)>, NoMemory> {
    for name in declared {
        if !name.lifted && name.name.as_slice() == old {
            let fronts = fronts(alloc, name.kind, old, new)?;
            if fronts.is_some() {
                return Ok(fronts);
            }
        }
    }
    Ok(None)
}

/// What the names of inline types begin with that stand in a type of this name, and what under its new name.
fn fronts(
    alloc: Global,
    kind: NameKind,
    old: &[u8],
    new: &[u8],
) -> Result<Option<(Vec<u8>, Vec<u8>)>, NoMemory> {
    match kind {
        NameKind::Constant | NameKind::Program => Ok(None),
        NameKind::Typedef => Ok(Some((
            lifted_name(alloc, old, old)?,
            lifted_name(alloc, new, new)?,
        ))),
        NameKind::Enum | NameKind::Struct | NameKind::Union => {
            Ok(Some((Vec::from_slice(alloc, old)?, Vec::from_slice(alloc, new)?)))
        }
    }
}

/// Whether some bytes are a name of the language.
fn is_name(bytes: &[u8]) -> bool {
    if bytes.is_empty() {
        return false;
    }
    let mut meter = Meter::new();
    lex_one(bytes, 0, true, &mut meter) == (Kind::Name, bytes.len())
}

/// Whether nobody declares a name.
fn is_free(names: &Names, name: &[u8]) -> bool {
    !is_beforehand(name) && names.first(name).is_none()
}

/// The edits that give names new ones wherever they stand; refused where one stands in what does not parse.
fn edits_of_all(
    alloc: Global,
    encoding: Encoding,
    document: &OpenText,
    new_names: &NewNames,
) -> Result<Result<Value, ErrorCode>, NoMemory>
    ensures value { IfOk result (λ r. IfOk r (λ v. has_float (view v) ≡ false)) }
    ensures code { IfOk result (λ r. IfErr r (λ code. is_of_question code ≡ true)) }
{
    for old in new_names.keys() {
        if let Some(token) = unparsed_use(alloc, &document.compiled.session, old)? {
            return Ok(Err(name_unparsed(encoding, document, &token)));
        }
    }
    Ok(Ok(edits(alloc, encoding, document, new_names)?))
}

/// The edits that give names new ones wherever they stand, in the order of the text.
fn edits(
    alloc: Global,
    encoding: Encoding,
    document: &OpenText,
    new_names: &NewNames,
) -> Result<Value, NoMemory>
    ensures { IfOk result (λ v. has_float (view v) ≡ false) }
{
    let session = &document.compiled.session;
    let mut tokens = find_names(alloc, session, Sought::Own)?;
    tokens.sort_unstable_by_key(|token| token.start);
    let mut places = Places::of(encoding, document.shown.bytes());
    let mut list = PlainList::new(alloc);
    for token in &tokens {
        if let Some(name) = new_names.get(token.text) {
            list.push(edit(alloc, &mut places, token, name)?)?;
        }
    }
    Ok(workspace_edit(alloc, document.uri, list.into_value())?)
}

/// The edits of a document: a `WorkspaceEdit`.
fn workspace_edit(alloc: Global, uri: &str, edits: Value) -> Result<Value, AllocError>
    requires { has_float (view edits) ≡ false }
    ensures { IfOk result (λ v. has_float (view v) ≡ false) }
{
    let changes = json!(in alloc; {uri: edits})?;
    json!(in alloc; {"changes": changes})
}

/// The edit that puts a name in the place of a token: a `TextEdit`.
fn edit(alloc: Global, places: &mut Places, token: &Token, name: &[u8]) -> Result<Value, AllocError>
    ensures { IfOk result (λ v. has_float (view v) ≡ false) }
{
    let range = range_value(alloc, &range_of(places, token))?;
    let text = String::from_utf8_lossy(alloc, name)?;
    let text = text.as_str();
    json!(in alloc; {"newText": text, "range": range})
}
