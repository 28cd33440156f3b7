//! The names of a text, each with its first declarer.

ghost use Rattle.std.specs.Prelude.{◌≡◌, IfOk, option_map};
ghost use Rattle.x_lex.specs.Places.{lexeme};
ghost use Rattle.x_session.specs.Session.{Compiles};
ghost use Rattle.x_lookups.specs.NamePlaces.{named_by, token_at};

use crate::name_places::{Sought, find_names};
use std::alloc::Global;
use x_lex::Token;
use x_names::{Declarer, Names};
use x_session::{Session, definitions};
use x_text::NoMemory;

/// The names that a text declares.
///
/// # Errors
///
/// [`NoMemory`] where a table could not grow.
pub fn names(alloc: Global, session: &Session) -> Result<Names<'_>, NoMemory> {
    let definitions = definitions(alloc, session)?;
    Names::keyed(alloc, session.hash_key(), &definitions)
}

/// A word that is a name which the text declares, and where it is declared first.
#[derive(Clone, Copy, Debug)]
pub struct FoundName<'s> {
    /// The word.
    pub token: Token<'s>,
    /// Who declares its name first.
    pub declarer: Declarer,
}

/// The name at a place of a text, if the text declares it.
///
/// # Errors
///
/// [`NoMemory`] where a list could not grow.
pub fn declared_name_at<'s>(
    alloc: Global,
    session: &'s Session,
    names: &Names,
    at: usize,
) -> Result<Option<FoundName<'s>>, NoMemory>
    ensures { IfOk result (λ found. Compiles session.now.known session.now.text (λ items.
        option_map (λ f. (lexeme f.token, f.declarer)) found ≡ named_by names.now (token_at items at))) }
{
    let tokens = find_names(alloc, session, Sought::At(at))?;
    let Some(token) = tokens.first() else {
        return Ok(None);
    };
    match names.first(token.text) {
        Some(declarer) => Ok(Some(FoundName {
            token: *token,
            declarer,
        })),
        None => Ok(None),
    }
}
