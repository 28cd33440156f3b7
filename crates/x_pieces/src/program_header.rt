//! The piece of the header that is of a program.

ghost use Rattle.std.specs.Prelude.{◌≡◌, ◌++◌, map, OnOk};
ghost use Rattle.x_trees.specs.View.{view_procedure, view_version};
ghost use Rattle.x_pieces.specs.Header.{group_struct, group_lines, function_lines};
ghost use Rattle.x_pieces.specs.Header.{version_lines, program_header};

use crate::add::add;
use crate::c_types::{CType, passed_type};
use crate::header::{add_constant, add_routine_line};
use crate::procedures::{
    ArgumentPiece, Call, ProcedurePiece, add_arguments, add_procedures, argument_in,
};
use std::alloc::Global;
use x_text::NoMemory;
use x_trees::{Procedure, Version};

/// The field of one of several arguments.
struct Field;

impl ArgumentPiece for Field {
    ghost use Rattle.x_pieces.specs.Header.{argument_line};

    ghost piece = { λ _. argument_line };

    fn add(&self, text: &mut Vec<u8>, number: &[u8], c: CType) -> Result<(), NoMemory> {
        add(text, &[b"    ", c.name, b" arg", number, b";\n"])
    }
}

/// Adds the struct of several arguments.
fn add_group(text: &mut Vec<u8>, group: &[u8], procedure: &Procedure) -> Result<(), NoMemory>
    ensures { OnOk result (text.new.items ≡ text.old.items
        ++ group_struct group.now (view_procedure procedure.now)) }
{
    add(text, &[b"struct ", group, b" {\n"])?;
    add_arguments(text, &Field, procedure)?;
    add(text, &[b"};\ntypedef struct ", group, b" ", group, b";\n"])?;
    add_routine_line(text, group)
}

/// Adds the struct of the arguments, where they are several.
fn add_group_lines(text: &mut Vec<u8>, group: &[u8], procedure: &Procedure) -> Result<(), NoMemory>
    ensures { OnOk result (text.new.items ≡ text.old.items
        ++ group_lines group.now (view_procedure procedure.now)) }
{
    if procedure.others.is_empty() {
        Ok(())
    } else {
        add_group(text, group, procedure)
    }
}

/// Adds the lines that declare the functions of a procedure.
fn add_functions(text: &mut Vec<u8>, call: &Call, procedure: &Procedure) -> Result<(), NoMemory>
    ensures { OnOk result (text.new.items ≡ text.old.items
        ++ function_lines call.now.function.items call.now.group.items (view_procedure procedure.now)) }
{
    let argument = argument_in(&call.group, procedure).name;
    let result = passed_type(&procedure.result).name;
    let function = &call.function;
    add(
        text,
        &[
            b"extern ",
            result,
            b" *",
            function,
            b"(",
            argument,
            b" *, CLIENT *);\n",
            b"extern ",
            result,
            b" *",
            function,
            b"_svc(",
            argument,
            b" *, struct svc_req *);\n",
        ],
    )
}

/// The lines of a procedure.
struct ProcedureLines;

impl ProcedurePiece for ProcedureLines {
    ghost use Rattle.x_pieces.specs.Header.{procedure_lines};

    ghost piece = { λ _. procedure_lines };

    fn add(&self, text: &mut Vec<u8>, call: &Call, procedure: &Procedure) -> Result<(), NoMemory> {
        add_group_lines(text, &call.group, procedure)?;
        add_constant(text, &procedure.name, &procedure.number)?;
        add_functions(text, call, procedure)
    }
}

/// Adds the lines of a version.
fn add_version(alloc: Global, text: &mut Vec<u8>, version: &Version) -> Result<(), NoMemory>
    ensures { OnOk result (text.new.items ≡ text.old.items ++ version_lines (view_version version.now)) }
{
    add_constant(text, &version.name, &version.number)?;
    add_procedures(alloc, text, &ProcedureLines, version)
}

/// Adds the piece of a program.
pub fn add_program(
    alloc: Global,
    text: &mut Vec<u8>,
    name: &[u8],
    versions: &[Version],
    number: &[u8],
) -> Result<(), NoMemory>
    ensures { OnOk result (text.new.items ≡ text.old.items
        ++ program_header name.now (map view_version versions.now) number.now) }
{
    add_constant(text, name, number)?;
    for version in versions {
        add_version(alloc, text, version)?;
    }
    text.extend_from_slice(b"\n")?;
    Ok(())
}
