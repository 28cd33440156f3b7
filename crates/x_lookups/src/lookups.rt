//! The name at a place of a text: where it is declared first, and where it is used.

ghost use Rattle.std.specs.Prelude.{◌≡◌, IfOk, is_some, map, option_and_then, option_map};
ghost use Rattle.x_lex.specs.Places.{lexeme};
ghost use Rattle.x_session.specs.Session.{Compiles};
ghost use Rattle.x_session.specs.DeclaredNames.{definition_of};
ghost use Rattle.x_lookups.specs.NamePlaces.{first_of, is_lifted_name, name_at, references_of};
ghost use Rattle.x_lookups.specs.Unparsed.{any_name_at, unparsed_use_at};

use crate::name_places::{Sought, find_names};
use crate::unparsed::{unparsed_name, unparsed_use};
use std::alloc::Global;
use x_lex::Token;
use x_names::is_beforehand;
use x_session::Session;
use x_text::NoMemory;

/// The token that declares first the name at a place of the text; none where no name stands there, or nobody
/// declares it.
///
/// # Errors
///
/// [`NoMemory`] where a list could not grow.
pub fn definition_at(
    alloc: Global,
    session: &Session,
    at: usize,
) -> Result<Option<Token<'_>>, NoMemory>
    ensures { IfOk result (λ found. Compiles session.now.known session.now.text
        (λ items. option_map lexeme found ≡ option_and_then (definition_of items) (name_at items at))) }
{
    match name_at(alloc, session, at)? {
        Some(name) => definition_of(alloc, session, name),
        None => Ok(None),
    }
}

/// The tokens that use the name at a place of the text, and if they are asked for, those that declare it,
/// item by item; none where no name stands there.
///
/// # Errors
///
/// [`NoMemory`] where a list could not grow.
pub fn references_at(
    alloc: Global,
    session: &Session,
    at: usize,
    declared: bool,
) -> Result<Vec<Token<'_>>, NoMemory>
    ensures { IfOk result (λ found. Compiles session.now.known session.now.text
        (λ items. map lexeme found.items ≡ references_of items declared (name_at items at))) }
{
    match name_at(alloc, session, at)? {
        Some(name) => find_names(alloc, session, Sought::Using { name, declared }),
        None => Ok(Vec::new(alloc)),
    }
}

/// The first token that is the name at a place of the text and stands in an item that does not parse. The
/// item at the place may be one.
///
/// # Errors
///
/// [`NoMemory`] where a list could not grow.
pub fn unparsed_use_at(
    alloc: Global,
    session: &Session,
    at: usize,
) -> Result<Option<Token<'_>>, NoMemory>
    ensures { IfOk result (λ found. Compiles session.now.known session.now.text
        (λ items. option_map lexeme found ≡ unparsed_use_at items at)) }
{
    match any_name_at(alloc, session, at)? {
        Some(name) => unparsed_use(alloc, session, name),
        None => Ok(None),
    }
}

/// Whether an inline type has this name: that of the type around it, `_`, and that of its declaration.
///
/// # Errors
///
/// [`NoMemory`] where a list could not grow.
pub fn is_lifted_name(alloc: Global, session: &Session, name: &[u8]) -> Result<bool, NoMemory>
    ensures { IfOk result (λ lifted. Compiles session.now.known session.now.text
        (λ items. lifted ≡ is_lifted_name items name.now)) }
{
    let tokens = find_names(alloc, session, Sought::Lifting(name))?;
    Ok(first(&tokens).is_some())
}

/// The name at a place of the text, whether its item parses or not.
fn any_name_at(alloc: Global, session: &Session, at: usize) -> Result<Option<&[u8]>, NoMemory>
    ensures { IfOk result (λ found. Compiles session.now.known session.now.text
        (λ items. option_map (λ name. name.now) found ≡ any_name_at items at)) }
{
    match name_at(alloc, session, at)? {
        Some(name) => Ok(Some(name)),
        None => unparsed_name(alloc, session, at),
    }
}

/// The name at a place of the text.
fn name_at(alloc: Global, session: &Session, at: usize) -> Result<Option<&[u8]>, NoMemory>
    ensures { IfOk result (λ found. Compiles session.now.known session.now.text
        (λ items. option_map (λ name. name.now) found ≡ name_at items at)) }
{
    let tokens = find_names(alloc, session, Sought::At(at))?;
    match first(&tokens) {
        Some(token) => Ok(Some(token.text)),
        None => Ok(None),
    }
}

/// The token that declares a name first.
fn definition_of<'s>(
    alloc: Global,
    session: &'s Session,
    name: &[u8],
) -> Result<Option<Token<'s>>, NoMemory>
    ensures { IfOk result (λ found. Compiles session.now.known session.now.text
        (λ items. option_map lexeme found ≡ definition_of items name.now)) }
{
    let tokens = find_names(alloc, session, Sought::Declaring(name))?;
    if is_beforehand(name) {
        return Ok(None);
    }
    Ok(first(&tokens))
}

fn first<'s>(tokens: &[Token<'s>]) -> Option<Token<'s>>
    ensures { option_map lexeme result ≡ first_of (map lexeme tokens.now) }
{
    match tokens {
        [] => None,
        [token, ..] => Some(*token),
    }
}
