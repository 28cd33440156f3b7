//! What is told of the parts of a definition that no other one names: fields, versions and procedures.

ghost use Rattle.std.specs.Prelude.{◌≡◌, map, slice_get};
ghost use Rattle.x_lex.specs.Places.{lexeme};
ghost use Rattle.x_lookups.specs.NamePlaces.{touches};
ghost use Rattle.x_questions.specs.Parts.{has_number, kind_text, span_of, text_of};

use crate::hover::ToldWord;
use crate::written::{item_tokens, number_in, told_lines};
use std::alloc::Global;
use std::str;
use x_item::{lifted_name, next_item};
use x_lex::{Kind, Mark, Token};
use x_lookups::{Part, PartKind, parts_of};
use x_session::Session;
use x_text::NoMemory;

/// What is told of the part of a definition whose name stands at a place: how it is written, and what it
/// belongs to behind an empty line.
pub(crate) fn told_part<'s>(
    alloc: Global,
    session: &'s Session,
    at: usize,
) -> Result<Option<ToldWord<'s>>, NoMemory> {
    let Some(item) = item_at(alloc, session, at)? else {
        return Ok(None);
    };
    let tokens = item_tokens(alloc, session, item)?;
    let parts = parts_of(alloc, &tokens)?;
    for (index, part) in parts.iter().enumerate() {
        if let Some(body) = part.within
            && let Some(token) = tokens.get(part.name)
            && touches(token, at)
        {
            let rest = parts.get(index..).unwrap_or(&[]);
            let told = told_of(alloc, session, item, &tokens, part, body, rest)?;
            return Ok(Some(ToldWord {
                token: *token,
                told,
            }));
        }
    }
    Ok(None)
}

/// The item with a definition that has a name at a place.
fn item_at(alloc: Global, session: &Session, at: usize) -> Result<Option<usize>, NoMemory> {
    let mut walk = session.tokens();
    let mut tokens = Vec::new(alloc);
    for item in 0..session.item_count() {
        next_item(&mut tokens, &mut walk)?;
        for token in &tokens {
            if token.kind == Kind::Name && touches(token, at) {
                let found = session.definition(item).is_some();
                return Ok(if found { Some(item) } else { None });
            }
        }
    }
    Ok(None)
}

/// Whether a token holds a place, or ends there.
fn touches(token: &Token, at: usize) -> bool
    ensures { result ≡ touches (lexeme token.now) at }
{
    token.start <= at && at <= token.end
}

/// What is told of a part in the body of a keyword. It is the first of these parts: those behind it are
/// around it, or no part of it.
fn told_of(
    alloc: Global,
    session: &Session,
    item: usize,
    tokens: &[Token],
    part: &Part,
    body: Mark,
    rest: &[Part],
) -> Result<String, NoMemory> {
    let words = tokens
        .get(part.first..part.last.saturating_add(1))
        .unwrap_or(&[]);
    let mut told = told_lines(alloc, session.bytes(), span_of(words))?;
    told.push_str("\n\n")?;
    told.push_str(kind_text(part.kind))?;
    told.push_str(" of ")?;
    told.push_str(str::from_utf8(body.text()).unwrap_or("?"))?;
    told.push_str(" ")?;
    let around = name_around(alloc, tokens, rest)?;
    told.push_str(String::from_utf8_lossy(alloc, &around)?.as_str())?;
    if has_number(part.kind)
        && is_faultless(session, item)
        && let Some(number) = number_in(words)
    {
        told.push_str(format!(in alloc; "\n= {number}")?.as_str())?;
    }
    Ok(told)
}

/// Where tokens start and end.
fn span_of(tokens: &[Token]) -> Option<(usize, usize)>
    ensures { result ≡ span_of (map lexeme tokens.now) }
{
    match (tokens.first(), tokens.last()) {
        (Some(first), Some(last)) => Some((first.start, last.end)),
        _ => None,
    }
}

/// What a part is called.
fn kind_text(kind: PartKind) -> &'static str
    ensures { result.now ≡ kind_text kind }
{
    match kind {
        PartKind::Constant => "constant",
        PartKind::Enum => "enum",
        PartKind::Enumerator => "enumerator",
        PartKind::Struct => "struct",
        PartKind::Union => "union",
        PartKind::Typedef => "typedef",
        PartKind::Field => "field",
        PartKind::Program => "program",
        PartKind::Version => "version",
        PartKind::Procedure => "procedure",
    }
}

/// Whether a part has a number at its end.
fn has_number(kind: PartKind) -> bool
    ensures { result ≡ has_number kind }
{
    matches!(
        kind,
        PartKind::Program | PartKind::Version | PartKind::Procedure
    )
}

fn is_faultless(session: &Session, item: usize) -> bool {
    for place in session.fault_places() {
        if place.item as usize == item {
            return false;
        }
    }
    true
}

/// The name of what the first of these parts stands in: that of an inline type begins with that of the type
/// around it.
fn name_around(alloc: Global, tokens: &[Token], parts: &[Part]) -> Result<Vec<u8>, NoMemory> {
    let mut name = Vec::new(alloc);
    let mut depth = parts.first().map_or(0, |part| part.depth);
    for part in parts {
        if part.depth < depth {
            depth = part.depth;
            let own = text_at(tokens, part.name);
            name = name_within(alloc, own, &name)?;
            match part.kind {
                PartKind::Typedef => name = name_within(alloc, own, &name)?,
                PartKind::Program | PartKind::Version => return Ok(name),
                _ => {}
            }
        }
    }
    Ok(name)
}

fn text_at<'s>(tokens: &[Token<'s>], index: usize) -> &'s [u8]
    ensures { result.now ≡ text_of (slice_get (map lexeme tokens.now) index) }
{
    match tokens.get(index) {
        Some(token) => token.text,
        None => &[],
    }
}

/// The name of what has this name within another.
fn name_within(alloc: Global, around: &[u8], name: &[u8]) -> Result<Vec<u8>, NoMemory> {
    if name.is_empty() {
        return Ok(Vec::from_slice(alloc, around)?);
    }
    lifted_name(alloc, around, name)
}
