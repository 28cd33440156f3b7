//! The clashes of an open text, at their places.

ghost use Rattle.std.specs.Prelude.{◌≡◌, IfOk, map};
ghost use Rattle.x_session.specs.Session.{Compiles};
ghost use Rattle.x_warnings.specs.Warnings.{AreWarnings, other_of, spots_in, view_warning, warning_of};

use crate::warning::{OtherMeaning, Warning};
use std::alloc::Global;
use x_clash::{Clash, Rival, clashes};
use x_session::{DeclaredNames, Session, definitions};
use x_taken::Taken;
use x_text::NoMemory;

/// The names of a text that clash in C, in the order of the words that lead to them, each at its places.
///
/// Takes time in proportion to the text, but for sorting the clashes of an item.
///
/// # Errors
///
/// [`NoMemory`] where a list or a table could not be kept.
pub fn warnings(alloc: Global, session: &Session) -> Result<Vec<Warning<'_>>, NoMemory>
    ensures { IfOk result (λ list. Compiles session.now.known session.now.text (λ items.
        AreWarnings session.now.text items (map view_warning list.items))) }
{
    // So many tokens fit, and no definition has more words.
    let _ = session.token_count();
    let definitions = definitions(alloc, session)?;
    let taken = Taken::of(alloc, session.hash_key())?;
    let found = clashes(alloc, session.hash_key(), &taken, &definitions)?;
    if found.is_empty() {
        return Ok(Vec::new(alloc));
    }
    let table = DeclaredNames::of(alloc, session)?;
    placed(alloc, &table, found)
}

/// Clashes at their places.
fn placed<'s>(
    alloc: Global,
    table: &DeclaredNames,
    found: Vec<Clash<'s>>,
) -> Result<Vec<Warning<'s>>, NoMemory>
    ensures { IfOk result (λ list. map view_warning list.items
        ≡ map (warning_of (spots_in table.now)) found.entry.items) }
{
    let mut list = Vec::with_capacity(alloc, found.len())?;
    for clash in found {
        list.push(warning_at(table, clash))?;
    }
    Ok(list)
}

/// A clash at its places.
fn warning_at<'s>(table: &DeclaredNames, clash: Clash<'s>) -> Warning<'s>
    ensures { view_warning result ≡ warning_of (spots_in table.now) clash.entry }
{
    Warning {
        name: clash.name,
        spot: table.word(clash.place.item, clash.place.word),
        other: other_of(table, clash.rival),
    }
}

/// What else has a name, at its place.
fn other_of(table: &DeclaredNames, rival: Rival) -> OtherMeaning
    ensures { result ≡ other_of (spots_in table.now) rival }
{
    match rival {
        Rival::OfC(kind) => OtherMeaning::OfC(kind),
        Rival::OfText(place) => OtherMeaning::OfText(table.word(place.item, place.word)),
    }
}
