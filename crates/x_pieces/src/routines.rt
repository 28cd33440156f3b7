//! The pieces of the XDR routines.

ghost use Rattle.std.specs.Prelude.{◌≡◌, ◌++◌, map, codes, OnOk};
ghost use Rattle.std.specs.List.{flat_map};
ghost use Rattle.x_trees.specs.Tree.{Struct};
ghost use Rattle.x_trees.specs.View.{view_value, view_procedure, view_body, view_union};
ghost use Rattle.x_trees.specs.View.{view_declaration, view_declarations};
ghost use Rattle.x_trees.specs.View.{view_arms, view_default};
ghost use Rattle.x_pieces.specs.Routines.{routine_front, routine_end, checked_call, field_calls, case_lines};
ghost use Rattle.x_pieces.specs.Routines.{arm_calls, arms_calls};
ghost use Rattle.x_pieces.specs.Routines.{default_calls, body_calls, type_routine};
ghost use Rattle.x_pieces.specs.Routines.{typedef_routine, struct_routine};
ghost use Rattle.x_pieces.specs.Views.{view_location, view_named};

use crate::add::add;
use crate::c_types::{CType, spelled};
use crate::declaration::{Location, add_call};
use crate::procedures::{ArgumentPiece, Call, ProcedurePiece, add_arguments};
use crate::types::NamedBody;
use std::alloc::Global;
use x_text::NoMemory;
use x_trees::{Arm, Body, Declaration, Procedure, UnionBody, Value};

/// Adds what a routine begins with.
fn add_front(text: &mut Vec<u8>, name: &[u8]) -> Result<(), NoMemory>
    ensures { OnOk result (text.new.items ≡ text.old.items ++ routine_front name.now) }
{
    add(
        text,
        &[
            b"bool_t\nxdr_",
            name,
            b"(XDR *xdrs, ",
            name,
            b" *objp)\n{\n",
        ],
    )
}

/// Adds what a routine ends with where all was read or written.
fn add_end(text: &mut Vec<u8>) -> Result<(), NoMemory>
    ensures { OnOk result (text.new.items ≡ text.old.items ++ routine_end) }
{
    text.extend_from_slice(b"    return (TRUE);\n}\n\n")?;
    Ok(())
}

/// Adds a call that may fail, behind its indent, for what is declared inside the type that `around` names.
fn add_checked_call(
    alloc: Global,
    text: &mut Vec<u8>,
    indent: &[u8],
    around: &[u8],
    place: Location,
    declaration: &Declaration,
) -> Result<(), NoMemory>
    ensures { OnOk result (text.new.items ≡ text.old.items
        ++ checked_call indent.now around.now (view_location place.entry)
        (view_declaration declaration.now)) }
{
    if declaration.is_void() {
        return Ok(());
    }
    add(text, &[indent, b"if (!"])?;
    add_call(alloc, text, around, place, declaration)?;
    add(text, &[b")\n", indent, b"    return (FALSE);\n"])
}

/// Adds the calls for the fields of the struct that `around` names.
fn add_fields(
    alloc: Global,
    text: &mut Vec<u8>,
    around: &[u8],
    declarations: &[Declaration],
) -> Result<(), NoMemory>
    ensures { OnOk result (text.new.items ≡ text.old.items
        ++ field_calls around.now (view_declarations declarations.now)) }
{
    for declaration in declarations {
        add_checked_call(
            alloc,
            text,
            b"    ",
            around,
            Location::InStruct,
            declaration,
        )?;
    }
    Ok(())
}

/// Adds the lines of the cases of an arm.
fn add_cases(text: &mut Vec<u8>, cases: &[Value]) -> Result<(), NoMemory>
    ensures { OnOk result (text.new.items ≡ text.old.items ++ case_lines (map view_value cases.now)) }
{
    for value in cases {
        add(text, &[b"    case ", spelled(value), b":\n"])?;
    }
    Ok(())
}

/// Adds what is done in an arm of the union of this name.
fn add_arm(
    alloc: Global,
    text: &mut Vec<u8>,
    name: &[u8],
    declaration: &Declaration,
) -> Result<(), NoMemory>
    ensures { OnOk result (text.new.items ≡ text.old.items
        ++ arm_calls name.now (view_declaration declaration.now)) }
{
    add_checked_call(
        alloc,
        text,
        b"        ",
        name,
        Location::InUnion(name),
        declaration,
    )?;
    text.extend_from_slice(b"        break;\n")?;
    Ok(())
}

/// Adds the arms of the union of this name.
fn add_arms(alloc: Global, text: &mut Vec<u8>, name: &[u8], arms: &[Arm]) -> Result<(), NoMemory>
    ensures { OnOk result (text.new.items ≡ text.old.items ++ arms_calls name.now (view_arms arms.now)) }
{
    for arm in arms {
        add_cases(text, &arm.cases)?;
        add_arm(alloc, text, name, &arm.declaration)?;
    }
    Ok(())
}

/// Adds what is done for all other values of the union of this name.
fn add_default(
    alloc: Global,
    text: &mut Vec<u8>,
    name: &[u8],
    default: &Option<Declaration>,
) -> Result<(), NoMemory>
    ensures { OnOk result (text.new.items ≡ text.old.items
        ++ default_calls name.now (view_default default.now)) }
{
    match default {
        Some(declaration) => {
            text.extend_from_slice(b"    default:\n")?;
            add_arm(alloc, text, name, declaration)
        }
        None => {
            text.extend_from_slice(b"    default:\n        return (FALSE);\n")?;
            Ok(())
        }
    }
}

/// Adds what the routine of an enum does.
fn add_enum(text: &mut Vec<u8>) -> Result<(), NoMemory>
    ensures { OnOk result (text.new.items ≡ text.old.items
        ++ codes "    return (xdr_enum(xdrs, (enum_t *)objp));\n}\n\n") }
{
    text.extend_from_slice(b"    return (xdr_enum(xdrs, (enum_t *)objp));\n}\n\n")?;
    Ok(())
}

/// Adds what the routine of a struct does.
fn add_struct(
    alloc: Global,
    text: &mut Vec<u8>,
    name: &[u8],
    declarations: &[Declaration],
) -> Result<(), NoMemory>
    ensures { OnOk result (text.new.items ≡ text.old.items
        ++ body_calls name.now (Struct (view_declarations declarations.now))) }
{
    add_fields(alloc, text, name, declarations)?;
    add_end(text)
}

/// Adds what the routine of a union does.
fn add_union(
    alloc: Global,
    text: &mut Vec<u8>,
    name: &[u8],
    body: &UnionBody,
) -> Result<(), NoMemory>
    ensures { OnOk result (text.new.items ≡ text.old.items ++ body_calls name.now (view_union body.now)) }
{
    let discriminant = &body.discriminant;
    add_checked_call(alloc, text, b"    ", name, Location::InStruct, discriminant)?;
    add(
        text,
        &[b"    switch (objp->", discriminant.name(), b") {\n"],
    )?;
    add_arms(alloc, text, name, &body.arms)?;
    add_default(alloc, text, name, &body.default)?;
    text.extend_from_slice(b"    }\n")?;
    add_end(text)
}

/// Adds what the routine of a type does.
#[tactic(auto, using(x_trees::proofs::Rows::struct_view))]
fn add_body(alloc: Global, text: &mut Vec<u8>, name: &[u8], body: &Body) -> Result<(), NoMemory>
    ensures { OnOk result (text.new.items ≡ text.old.items ++ body_calls name.now (view_body body.now)) }
{
    match body {
        Body::Enum(_) => add_enum(text),
        Body::Struct(declarations) => add_struct(alloc, text, name, declarations),
        Body::Union(body) => add_union(alloc, text, name, body),
    }
}

/// Adds the routine of a type.
pub fn add_type(alloc: Global, text: &mut Vec<u8>, named: &NamedBody) -> Result<(), NoMemory>
    ensures { OnOk result (text.new.items ≡ text.old.items ++ type_routine (view_named named.now)) }
{
    add_front(text, &named.name)?;
    add_body(alloc, text, &named.name, named.body)
}

/// Adds the routine of a `typedef`.
pub fn add_typedef(
    alloc: Global,
    text: &mut Vec<u8>,
    declaration: &Declaration,
) -> Result<(), NoMemory>
    ensures { OnOk result (text.new.items ≡ text.old.items
        ++ typedef_routine (view_declaration declaration.now)) }
{
    if declaration.is_void() {
        return Ok(());
    }
    let name = declaration.name();
    add_front(text, name)?;
    add_checked_call(alloc, text, b"    ", name, Location::Alone, declaration)?;
    add_end(text)
}

/// The call for one of several arguments.
struct ArgumentCall;

impl ArgumentPiece for ArgumentCall {
    ghost use Rattle.x_pieces.specs.Routines.{argument_call};

    ghost piece = { λ _. argument_call };

    fn add(&self, text: &mut Vec<u8>, number: &[u8], c: CType) -> Result<(), NoMemory> {
        add(
            text,
            &[
                b"    if (!xdr_",
                c.routine,
                b"(xdrs, &objp->arg",
                number,
                b"))\n        return (FALSE);\n",
            ],
        )
    }
}

/// Adds the routine of the struct of several arguments.
fn add_group(text: &mut Vec<u8>, group: &[u8], procedure: &Procedure) -> Result<(), NoMemory>
    ensures { OnOk result (text.new.items ≡ text.old.items
        ++ struct_routine group.now (view_procedure procedure.now)) }
{
    add_front(text, group)?;
    add_arguments(text, &ArgumentCall, procedure)?;
    add_end(text)
}

/// The routine of the struct of a procedure's arguments, where they are several.
pub struct GroupRoutine;

impl ProcedurePiece for GroupRoutine {
    ghost use Rattle.x_pieces.specs.Routines.{group_routine};

    ghost piece = { λ _. group_routine };

    fn add(&self, text: &mut Vec<u8>, call: &Call, procedure: &Procedure) -> Result<(), NoMemory> {
        if procedure.others.is_empty() {
            return Ok(());
        }
        add_group(text, &call.group, procedure)
    }
}
