//! Making the pieces of a definition.

ghost use Rattle.std.specs.Prelude.{◌≡◌, ◌++◌, [], OnOk, IfOk};
ghost use Rattle.std.specs.List.{flat_map};
ghost use Rattle.x_trees.specs.View.{view_definition};
ghost use Rattle.x_pieces.specs.Header.{forward_line, type_header};
ghost use Rattle.x_pieces.specs.Routines.{type_routine};
ghost use Rattle.x_pieces.specs.Rendering.{own_header, own_routines, stubs_of, table_of, pieces_of};
ghost use Rattle.x_pieces.specs.Views.{view_types};

use crate::c_types::spelled;
use crate::pieces::{Ends, Pieces};
use crate::procedures::add_versions;
use crate::routines::GroupRoutine;
use crate::stubs::Stub;
use crate::types::{NamedBody, types_of};
use crate::{header, program_header, routines, table};
use std::alloc::Global;
use x_text::NoMemory;
use x_trees::Definition;

/// Adds the forward lines of types.
fn add_forwards(text: &mut Vec<u8>, types: &[NamedBody]) -> Result<(), NoMemory>
    ensures { OnOk result (text.new.items ≡ text.old.items ++ flat_map forward_line (view_types types.now)) }
{
    for named in types {
        header::add_forward(text, named)?;
    }
    Ok(())
}

/// Adds the pieces of types to a header.
fn add_headers(alloc: Global, text: &mut Vec<u8>, types: &[NamedBody]) -> Result<(), NoMemory>
    ensures { OnOk result (text.new.items ≡ text.old.items ++ flat_map type_header (view_types types.now)) }
{
    for named in types {
        header::add_type(alloc, text, named)?;
    }
    Ok(())
}

/// Adds the routines of types.
fn add_routines(alloc: Global, text: &mut Vec<u8>, types: &[NamedBody]) -> Result<(), NoMemory>
    ensures { OnOk result (text.new.items ≡ text.old.items ++ flat_map type_routine (view_types types.now)) }
{
    for named in types {
        routines::add_type(alloc, text, named)?;
    }
    Ok(())
}

/// Adds what stands in the header behind the types of a definition.
fn add_own_header(
    alloc: Global,
    text: &mut Vec<u8>,
    definition: &Definition,
) -> Result<(), NoMemory>
    ensures { OnOk result (text.new.items ≡ text.old.items ++ own_header (view_definition definition.now)) }
{
    match definition {
        Definition::Const { name, value } => {
            header::add_constant(text, name, spelled(value))?;
            text.extend_from_slice(b"\n")?;
            Ok(())
        }
        Definition::Typedef(declaration) => header::add_typedef(alloc, text, declaration),
        Definition::NewType { .. } => Ok(()),
        Definition::Program {
            name,
            versions,
            number,
        } => program_header::add_program(alloc, text, name, versions, number),
    }
}

/// Adds what stands in the routines behind those of the types of a definition.
fn add_own_routines(
    alloc: Global,
    text: &mut Vec<u8>,
    definition: &Definition,
) -> Result<(), NoMemory>
    ensures { OnOk result (text.new.items ≡ text.old.items ++ own_routines (view_definition definition.now)) }
{
    match definition {
        Definition::Typedef(declaration) => routines::add_typedef(alloc, text, declaration),
        Definition::Program { versions, .. } => add_versions(alloc, text, &GroupRoutine, versions),
        Definition::Const { .. } | Definition::NewType { .. } => Ok(()),
    }
}

/// Adds the stubs of a definition.
fn add_stubs(alloc: Global, text: &mut Vec<u8>, definition: &Definition) -> Result<(), NoMemory>
    ensures { OnOk result (text.new.items ≡ text.old.items ++ stubs_of (view_definition definition.now)) }
{
    match definition {
        Definition::Program { versions, .. } => add_versions(alloc, text, &Stub, versions),
        _ => Ok(()),
    }
}

/// Adds the tables of a definition.
fn add_tables(alloc: Global, text: &mut Vec<u8>, definition: &Definition) -> Result<(), NoMemory>
    ensures { OnOk result (text.new.items ≡ text.old.items ++ table_of (view_definition definition.now)) }
{
    match definition {
        Definition::Program { name, versions, .. } => table::add_program(
            alloc, text, name, versions,
        ),
        _ => Ok(()),
    }
}

/// Makes the pieces of definitions, one after another, in memory that is used again.
#[derive(Drop)]
pub struct PieceMaker {
    alloc: Global,
    text: Vec<u8>,
}

impl PieceMaker {
    /// A maker that has made nothing yet.
    pub fn new(alloc: Global) -> PieceMaker {
        PieceMaker {
            alloc,
            text: Vec::new(alloc),
        }
    }

    /// What is generated of a definition, whatever faults it has.
    pub fn make(&mut self, definition: &Definition) -> Result<Pieces, NoMemory>
        ensures { IfOk result (λ pieces. pieces ≡ pieces_of (view_definition definition.now)) }
    {
        let alloc = self.alloc;
        let types = types_of(alloc, definition)?;
        let text = &mut self.text;
        text.clear();
        add_forwards(text, &types)?;
        let forward = text.len();
        add_headers(alloc, text, &types)?;
        add_own_header(alloc, text, definition)?;
        let header = text.len();
        add_routines(alloc, text, &types)?;
        add_own_routines(alloc, text, definition)?;
        let routines = text.len();
        add_stubs(alloc, text, definition)?;
        let stubs = text.len();
        add_tables(alloc, text, definition)?;
        let ends = Ends {
            forward,
            header,
            routines,
            stubs,
        };
        Pieces::copied(alloc, text, ends)
    }
}
