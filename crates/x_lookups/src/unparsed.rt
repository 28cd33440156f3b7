//! Names in what does not parse.

ghost use Rattle.std.specs.Prelude.{◌≡◌, ◌&&◌, IfOk, map, option_map};
ghost use Rattle.std.specs.List.{filter};
ghost use Rattle.x_lex.specs.Places.{lexeme};
ghost use Rattle.x_trees.specs.View.{tree_at};
ghost use Rattle.x_item.specs.Parse.{IsParse, Parse};
ghost use Rattle.x_compile.specs.Compile.{parsed_definition};
ghost use Rattle.x_session.specs.Session.{Compiles};
ghost use Rattle.x_lookups.specs.NamePlaces.{first_of};
ghost use Rattle.x_lookups.specs.Unparsed.{is_name, is_wanted, unparsed_in, unparsed_name, unparsed_use};
ghost use Rattle.x_lookups.specs.Unparsed.{unparsed_where};

use std::alloc::Global;
use x_item::{Definition, next_item};
use x_lex::{Kind, Token};
use x_session::Session;
use x_text::NoMemory;

/// What is looked for among the names of what does not parse.
#[derive(Clone, Copy)]
pub(crate) enum Wanted<'n> {
    /// This name.
    Named(&'n [u8]),
    /// What stands at this place.
    At(usize),
}

impl<'n> Wanted<'n> {
    /// Whether a token is a name, and is wanted.
    fn fits(self, token: &Token) -> bool
        ensures { let t = lexeme token.now in result ≡ (is_name t.kind && is_wanted self.entry t) }
    {
        if token.kind != Kind::Name {
            return false;
        }
        match self {
            Wanted::Named(name) => token.text == name,
            Wanted::At(at) => token.start <= at && at <= token.end,
        }
    }
}

/// The first token of the text that is this name and stands in an item that does not parse.
///
/// # Errors
///
/// [`NoMemory`] where a list could not grow.
pub fn unparsed_use<'s>(
    alloc: Global,
    session: &'s Session,
    name: &[u8],
) -> Result<Option<Token<'s>>, NoMemory>
    ensures { IfOk result (λ found. Compiles session.now.known session.now.text
        (λ items. option_map lexeme found ≡ unparsed_use items name.now)) }
{
    first_unparsed(alloc, session, Wanted::Named(name))
}

/// The name at a place of an item that does not parse.
pub(crate) fn unparsed_name(
    alloc: Global,
    session: &Session,
    at: usize,
) -> Result<Option<&[u8]>, NoMemory>
    ensures { IfOk result (λ found. Compiles session.now.known session.now.text
        (λ items. option_map (λ name. name.now) found ≡ unparsed_name items at)) }
{
    match first_unparsed(alloc, session, Wanted::At(at))? {
        Some(token) => Ok(Some(token.text)),
        None => Ok(None),
    }
}

/// The first token of the text that is wanted among the names of what does not parse.
fn first_unparsed<'s>(
    alloc: Global,
    session: &'s Session,
    wanted: Wanted,
) -> Result<Option<Token<'s>>, NoMemory>
    ensures { IfOk result (λ found. Compiles session.now.known session.now.text
        (λ items. option_map lexeme found ≡ first_of (unparsed_where (is_wanted wanted.entry) items))) }
{
    let mut walk = session.tokens();
    let mut tokens = Vec::new(alloc);
    for item in 0..session.item_count() {
        next_item(&mut tokens, &mut walk)?;
        if let Some(token) = first_in_item(&tokens, session.definition(item), wanted) {
            return Ok(Some(token));
        }
    }
    Ok(None)
}

/// The first of an item's tokens that is wanted, where it has no definition.
fn first_in_item<'s>(
    tokens: &[Token<'s>],
    definition: Option<&Definition>,
    wanted: Wanted,
) -> Option<Token<'s>>
    ensures { (parse : Parse) → IsParse (map lexeme tokens.now) parse
        → tree_at definition.entry ≡ parsed_definition parse → option_map lexeme result
        ≡ first_of (unparsed_in (is_wanted wanted.entry) (map lexeme tokens.now) parse) }
{
    match definition {
        Some(_) => None,
        None => first_fitting(tokens, wanted),
    }
}

/// The first of some tokens that is a name and wanted.
fn first_fitting<'s>(tokens: &[Token<'s>], wanted: Wanted) -> Option<Token<'s>>
    ensures { option_map lexeme result ≡ first_of
        (filter (λ t. is_name t.kind && is_wanted wanted.entry t) (map lexeme tokens.now)) }
{
    for token in tokens {
        if wanted.fits(token) {
            return Some(*token);
        }
    }
    None
}
