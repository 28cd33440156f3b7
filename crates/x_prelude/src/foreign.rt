//! The names that a text takes from C, with their places.

ghost use Rattle.std.specs.Prelude.{◌≡◌, ◌++◌, ℕ, List, IfOk, OnOk};
ghost use Rattle.std.specs.List.{flat_map};
ghost use Rattle.x_compile.specs.Compile.{Item};
ghost use Rattle.x_compile.specs.Known.{known_names};
ghost use Rattle.x_session.specs.Session.{Compiles};
ghost use Rattle.x_session.specs.DeclaredNames.{IsTableOf};
ghost use Rattle.x_session.specs.Foreign.{view_all};
ghost use Rattle.x_prelude.specs.Foreign.{AreForeign, foreign_at, foreign_names};
ghost use Rattle.x_prelude.specs.Lacking.{Occurrence, first_of_each};
ghost use Rattle.x_prelude.specs.LackingTable.{HasNames, view_use};

use crate::before::known_of;
use crate::definition::{FromC, is_type};
use crate::lacking::{FirstUse, LackingNames, lacking};
use std::alloc::Global;
use x_compile::KnownDefinitions;
use x_session::{DeclaredNames, ForeignName, Session};
use x_text::NoMemory;

/// The names that a text takes from C behind the text of known files, each where it uses it first, in the
/// order of these places; types of the table are left out. It goes over the text several times, and over the
/// known files once.
///
/// # Errors
///
/// [`NoMemory`] where a table or a list could not grow.
pub fn foreign_names<'s>(
    alloc: Global,
    files: &[u8],
    from_c: FromC,
    session: &'s Session,
) -> Result<Vec<ForeignName<'s>>, NoMemory>
    ensures { IfOk result (λ names. Compiles session.now.known session.now.text
        (λ items. AreForeign files.now from_c session.now.text items (view_all names.items))) }
{
    // The known files were opened before, so they are not too large.
    let Ok(known) = known_of(alloc, files) else {
        return Err(NoMemory);
    };
    foreign_in(alloc, session, &known, from_c)
}

/// Those behind what is known.
pub(crate) fn foreign_in<'s>(
    alloc: Global,
    session: &'s Session,
    known: &KnownDefinitions,
    from_c: FromC,
) -> Result<Vec<ForeignName<'s>>, NoMemory>
    ensures { IfOk result (λ names. Compiles session.now.known session.now.text (λ items.
        view_all names.items ≡ foreign_names from_c (known_names known.now) session.now.text items)) }
{
    if !from_c.foreign {
        let _ = session.item_count();
        return Ok(Vec::new(alloc));
    }
    let declared = DeclaredNames::of(alloc, session)?;
    let lacks = lacking(alloc, session, known)?;
    placed(alloc, &declared, &lacks, from_c)
}

/// Those among the names that a text lacks, at their first uses.
fn placed<'s>(
    alloc: Global,
    declared: &DeclaredNames,
    lacks: &LackingNames<'s>,
    from_c: FromC,
) -> Result<Vec<ForeignName<'s>>, NoMemory>
    ensures { IfOk result (λ names. (text : List ℕ) (items : List Item) (all : List Occurrence)
        → IsTableOf text items declared.now → HasNames lacks.now all
        → view_all names.items ≡ flat_map (foreign_at from_c text items) (first_of_each all)) }
{
    let mut names = Vec::new(alloc);
    for first in lacks.firsts.values() {
        add_placed(&mut names, declared, first, from_c)?;
    }
    Ok(names)
}

/// Adds a name at its first use, unless it is a type of C.
fn add_placed<'s>(
    names: &mut Vec<ForeignName<'s>>,
    declared: &DeclaredNames,
    first: &FirstUse<'s>,
    from_c: FromC,
) -> Result<(), NoMemory>
    ensures { OnOk result ((text : List ℕ) (items : List Item) → IsTableOf text items declared.now
        → view_all names.new.items
        ≡ view_all names.old.items ++ foreign_at from_c text items (view_use first.now)) }
{
    let name = first.mention.name;
    if is_type(from_c, name) {
        return Ok(());
    }
    if let Some(spot) = declared.word(first.item, first.mention.word) {
        names.push(ForeignName { name, spot })?;
    }
    Ok(())
}
