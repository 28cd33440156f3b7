//! The text of the definitions that a text lacks.

ghost use Rattle.std.specs.Prelude.{◌≡◌, ◌++◌, [], List, IfOk, OnOk, if◌then◌else◌};
ghost use Rattle.x_compile.specs.Compile.{definitions_of};
ghost use Rattle.x_compile.specs.Known.{known_names};
ghost use Rattle.x_session.specs.Session.{Compiles};
ghost use Rattle.x_prelude.specs.CTypes.{c_types};
ghost use Rattle.x_prelude.specs.Lacking.{Occurrence, lacking};
ghost use Rattle.x_prelude.specs.LackingTable.{HasNames};
ghost use Rattle.x_prelude.specs.Prelude.{definitions_of_names, prelude, types_in};

use crate::c_types::add_types;
use crate::definition::{FromC, add_definition};
use crate::lacking::{LackingNames, lacking};
use std::alloc::Global;
use x_compile::KnownDefinitions;
use x_session::Session;
use x_text::NoMemory;

/// The text of the definitions that a text lacks, behind what is known: each name that it uses and nobody
/// declares is taken as one of C, as far as these may be used. For the types of C alone it takes as long as
/// looking them up, once there is a table of the names of the text; for other names it takes time in
/// proportion to the text.
///
/// # Errors
///
/// [`NoMemory`] where a table or a text could not grow.
pub(crate) fn prelude_of(
    alloc: Global,
    session: &mut Session,
    known: &KnownDefinitions,
    from: FromC,
) -> Result<Vec<u8>, NoMemory>
    ensures session { session.new ≡ session.old }
    ensures text { IfOk result (λ text. Compiles session.old.known session.old.text
        (λ items. text.items ≡ prelude from (known_names known.now) (definitions_of items))) }
{
    let mut text = Vec::new(alloc);
    add_lacking_types(&mut text, session, known, from)?;
    add_lacking_names(alloc, &mut text, session, known, from)?;
    Ok(text)
}

/// Adds the types of C that a text lacks, if these may be used.
fn add_lacking_types(
    text: &mut Vec<u8>,
    session: &mut Session,
    known: &KnownDefinitions,
    from: FromC,
) -> Result<(), NoMemory>
    ensures session { session.new ≡ session.old }
    ensures text { OnOk result (Compiles session.old.known session.old.text
        (λ items. text.new.items ≡ text.old.items ++ (if from.types
        then types_in c_types (known_names known.now) (definitions_of items) else []))) }
{
    if from.types {
        return add_types(text, session, known);
    }
    // What the text defines is read, whatever of it is needed.
    let _ = session.item_count();
    Ok(())
}

/// Adds definitions that stand for the other names that a text lacks, if these may be used.
fn add_lacking_names(
    alloc: Global,
    text: &mut Vec<u8>,
    session: &Session,
    known: &KnownDefinitions,
    from: FromC,
) -> Result<(), NoMemory>
    ensures { OnOk result (Compiles session.now.known session.now.text
        (λ items. text.new.items ≡ text.old.items ++ (if from.foreign
        then definitions_of_names from (lacking (known_names known.now) (definitions_of items)) else []))) }
{
    if from.foreign {
        let lacks = lacking(alloc, session, known)?;
        return add_definitions(text, from, &lacks);
    }
    let _ = session.item_count();
    Ok(())
}

/// Adds the definitions of these names.
fn add_definitions(text: &mut Vec<u8>, from: FromC, lacks: &LackingNames) -> Result<(), NoMemory>
    ensures { OnOk result ((all : List Occurrence) → HasNames lacks.now all
        → text.new.items ≡ text.old.items ++ definitions_of_names from all) }
{
    for (number, first) in lacks.firsts.values().enumerate() {
        let tag = lacks.tag(first.mention.name);
        add_definition(text, from, number, &first.mention, tag)?;
    }
    Ok(())
}
