//! The pieces of the server's tables.

ghost use Rattle.std.specs.Prelude.{◌≡◌, ◌++◌, map, OnOk, IfOk};
ghost use Rattle.x_trees.specs.View.{view_passed, view_procedure, view_version};
ghost use Rattle.x_pieces.specs.Procedures.{sized, size_of};
ghost use Rattle.x_pieces.specs.Table.{argument_size, table_name, count_line, version_table, program_table};
ghost use Rattle.x_pieces.specs.Views.{view_c};

use crate::add::add;
use crate::c_types::{CType, argument_type, own, passed_type};
use crate::procedures::{
    Call, ProcedurePiece, add_decimal, add_lower, add_procedures, argument_in,
};
use std::alloc::Global;
use x_text::NoMemory;
use x_trees::{Argument, Procedure, Version};

/// Adds how large a value of the type is.
fn add_sized(text: &mut Vec<u8>, c: CType) -> Result<(), NoMemory>
    ensures { OnOk result (text.new.items ≡ text.old.items ++ sized (view_c c.entry)) }
{
    add(text, &[b"sizeof (", c.name, b")"])
}

/// Adds how large an argument or a result is: `void` has no size.
fn add_size(text: &mut Vec<u8>, passed: &Option<Argument>) -> Result<(), NoMemory>
    ensures { OnOk result (text.new.items ≡ text.old.items ++ size_of (view_passed passed.now)) }
{
    match passed {
        Some(argument) => add_sized(text, argument_type(argument)),
        None => {
            text.push(b'0')?;
            Ok(())
        }
    }
}

/// Adds how large the argument of a function is.
fn add_argument_size(
    text: &mut Vec<u8>,
    group: &[u8],
    procedure: &Procedure,
) -> Result<(), NoMemory>
    ensures { OnOk result (text.new.items ≡ text.old.items
        ++ argument_size group.now (view_procedure procedure.now)) }
{
    if procedure.others.is_empty() {
        add_size(text, &procedure.first)
    } else {
        add_sized(text, own(group))
    }
}

/// The row of a procedure.
struct Row;

impl ProcedurePiece for Row {
    ghost use Rattle.x_pieces.specs.Table.{row};

    ghost piece = { λ _. row };

    fn add(&self, text: &mut Vec<u8>, call: &Call, procedure: &Procedure) -> Result<(), NoMemory> {
        let argument = argument_in(&call.group, procedure).routine;
        let passed = passed_type(&procedure.result).routine;
        text.extend_from_slice(b"    { ")?;
        add_decimal(text, &procedure.number)?;
        add(
            text,
            &[
                b", (char *(*)())",
                &call.function,
                b"_svc, (xdrproc_t)xdr_",
                argument,
                b", ",
            ],
        )?;
        add_argument_size(text, &call.group, procedure)?;
        add(text, &[b", (xdrproc_t)xdr_", passed, b", "])?;
        add_size(text, &procedure.result)?;
        text.extend_from_slice(b" },\n")?;
        Ok(())
    }
}

/// The name of the table of a version.
fn table_name(alloc: Global, program: &[u8], version: &Version) -> Result<Vec<u8>, NoMemory>
    ensures { IfOk result (λ name. name.items ≡ table_name program.now (view_version version.now)) }
{
    let mut name = Vec::new(alloc);
    add_lower(&mut name, program)?;
    name.push(b'_')?;
    add_decimal(&mut name, &version.number)?;
    Ok(name)
}

/// Adds how many rows the table of this name has.
fn add_count(text: &mut Vec<u8>, table: &[u8]) -> Result<(), NoMemory>
    ensures { OnOk result (text.new.items ≡ text.old.items ++ count_line table.now) }
{
    add(
        text,
        &[
            b"int ",
            table,
            b"_nproc = sizeof (",
            table,
            b"_table) / sizeof (",
            table,
            b"_table[0]);\n\n",
        ],
    )
}

/// Adds the table of a version.
fn add_version(
    alloc: Global,
    text: &mut Vec<u8>,
    program: &[u8],
    version: &Version,
) -> Result<(), NoMemory>
    ensures { OnOk result (text.new.items ≡ text.old.items
        ++ version_table program.now (view_version version.now)) }
{
    let table = table_name(alloc, program, version)?;
    add(text, &[b"struct rpcgen_table ", &table, b"_table[] = {\n"])?;
    add_procedures(alloc, text, &Row, version)?;
    text.extend_from_slice(b"};\n")?;
    add_count(text, &table)
}

/// Adds the tables of a program.
pub fn add_program(
    alloc: Global,
    text: &mut Vec<u8>,
    program: &[u8],
    versions: &[Version],
) -> Result<(), NoMemory>
    ensures { OnOk result (text.new.items ≡ text.old.items
        ++ program_table program.now (map view_version versions.now)) }
{
    for version in versions {
        add_version(alloc, text, program, version)?;
    }
    Ok(())
}
