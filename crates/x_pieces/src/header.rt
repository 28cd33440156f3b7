//! The pieces of the header that are of types, constants and `typedef`s.

ghost use Rattle.std.specs.Prelude.{◌≡◌, ◌++◌, map, codes, OnOk};
ghost use Rattle.std.specs.List.{flat_map};
ghost use Rattle.x_trees.specs.View.{view_value, view_enumerator, view_body, view_union, view_declaration};
ghost use Rattle.x_trees.specs.View.{view_declarations, view_arms};
ghost use Rattle.x_trees.specs.View.{view_default};
ghost use Rattle.x_trees.specs.Tree.{Enum, Struct};
ghost use Rattle.x_pieces.specs.Header.{forward_line, routine_line, constant_line, enumerator_text};
ghost use Rattle.x_pieces.specs.Header.{enumerator_lines, member_line};
ghost use Rattle.x_pieces.specs.Header.{field_lines, are_void, arm_lines, union_lines, body_lines};
ghost use Rattle.x_pieces.specs.Header.{type_header, typedef_header};
ghost use Rattle.x_pieces.specs.Views.{view_named, view_types};

use crate::add::add;
use crate::c_types::spelled;
use crate::declaration::add_declaration;
use crate::types::NamedBody;
use std::alloc::Global;
use x_text::NoMemory;
use x_trees::{Arm, Body, Declaration, Enumerator, UnionBody};

/// Adds the line that names a struct or a union before it is declared.
pub fn add_forward(text: &mut Vec<u8>, named: &NamedBody) -> Result<(), NoMemory>
    ensures { OnOk result (text.new.items ≡ text.old.items ++ forward_line (view_named named.now)) }
{
    match named.body {
        Body::Enum(_) => Ok(()),
        _ => add(
            text,
            &[b"typedef struct ", &named.name, b" ", &named.name, b";\n"],
        ),
    }
}

/// Adds the line that declares the routine of a type.
pub fn add_routine_line(text: &mut Vec<u8>, name: &[u8]) -> Result<(), NoMemory>
    ensures { OnOk result (text.new.items ≡ text.old.items ++ routine_line name.now) }
{
    add(
        text,
        &[b"extern bool_t xdr_", name, b"(XDR *, ", name, b" *);\n"],
    )
}

/// Adds the line of a constant.
pub fn add_constant(text: &mut Vec<u8>, name: &[u8], number: &[u8]) -> Result<(), NoMemory>
    ensures { OnOk result (text.new.items ≡ text.old.items ++ constant_line name.now number.now) }
{
    add(text, &[b"#define ", name, b" ", number, b"\n"])
}

/// Adds an enumerator, with its value where it is given.
fn add_enumerator(text: &mut Vec<u8>, enumerator: &Enumerator) -> Result<(), NoMemory>
    ensures { OnOk result
        (text.new.items ≡ text.old.items ++ enumerator_text (view_enumerator enumerator.now)) }
{
    match &enumerator.value {
        Some(value) => add(text, &[b"    ", &enumerator.name, b" = ", spelled(value)]),
        None => add(text, &[b"    ", &enumerator.name]),
    }
}

/// Adds enumerators that stand behind others.
fn add_other_enumerators(text: &mut Vec<u8>, enumerators: &[Enumerator]) -> Result<(), NoMemory>
    ensures { OnOk result (text.new.items ≡ text.old.items
        ++ flat_map (λ other. codes ",\n" ++ enumerator_text other) (map view_enumerator enumerators.now)) }
{
    for enumerator in enumerators {
        text.extend_from_slice(b",\n")?;
        add_enumerator(text, enumerator)?;
    }
    Ok(())
}

/// Adds the lines of the enumerators of an enum.
fn add_enumerators(text: &mut Vec<u8>, enumerators: &[Enumerator]) -> Result<(), NoMemory>
    ensures { OnOk result (text.new.items ≡ text.old.items
        ++ enumerator_lines (map view_enumerator enumerators.now)) }
{
    match enumerators.split_first() {
        Some((first, others)) => {
            add_enumerator(text, first)?;
            add_other_enumerators(text, others)?;
            text.extend_from_slice(b"\n")?;
            Ok(())
        }
        None => Ok(()),
    }
}

/// Adds the line of a declaration, behind its indent, inside the type that `around` names.
fn add_member(
    alloc: Global,
    text: &mut Vec<u8>,
    indent: &[u8],
    around: &[u8],
    declaration: &Declaration,
) -> Result<(), NoMemory>
    ensures { OnOk result (text.new.items ≡ text.old.items
        ++ member_line indent.now around.now (view_declaration declaration.now)) }
{
    if declaration.is_void() {
        return Ok(());
    }
    text.extend_from_slice(indent)?;
    add_declaration(alloc, text, around, declaration)?;
    text.extend_from_slice(b";\n")?;
    Ok(())
}

/// Adds the lines of the fields of the struct that `around` names.
fn add_fields(
    alloc: Global,
    text: &mut Vec<u8>,
    around: &[u8],
    declarations: &[Declaration],
) -> Result<(), NoMemory>
    ensures { OnOk result (text.new.items ≡ text.old.items
        ++ field_lines around.now (view_declarations declarations.now)) }
{
    for declaration in declarations {
        add_member(alloc, text, b"    ", around, declaration)?;
    }
    Ok(())
}

/// Whether no arm has a value.
fn are_void(arms: &[Arm], default: &Option<Declaration>) -> bool
    ensures { result ≡ are_void (view_arms arms.now) (view_default default.now) }
{
    for arm in arms {
        if !arm.declaration.is_void() {
            return false;
        }
    }
    match default {
        Some(declaration) => declaration.is_void(),
        None => true,
    }
}

/// Adds the lines of the arms that have a value.
fn add_arms(
    alloc: Global,
    text: &mut Vec<u8>,
    around: &[u8],
    arms: &[Arm],
    default: &Option<Declaration>,
) -> Result<(), NoMemory>
    ensures { OnOk result (text.new.items ≡ text.old.items
        ++ arm_lines around.now (view_arms arms.now) (view_default default.now)) }
{
    for arm in arms {
        add_member(alloc, text, b"        ", around, &arm.declaration)?;
    }
    match default {
        Some(declaration) => add_member(alloc, text, b"        ", around, declaration),
        None => Ok(()),
    }
}

/// Adds the values of the arms of the union of this name.
fn add_union_lines(
    alloc: Global,
    text: &mut Vec<u8>,
    name: &[u8],
    arms: &[Arm],
    default: &Option<Declaration>,
) -> Result<(), NoMemory>
    ensures { OnOk result (text.new.items ≡ text.old.items
        ++ union_lines name.now (view_arms arms.now) (view_default default.now)) }
{
    if are_void(arms, default) {
        return Ok(());
    }
    text.extend_from_slice(b"    union {\n")?;
    add_arms(alloc, text, name, arms, default)?;
    add(text, &[b"    } ", name, b"_u;\n"])
}

/// Adds the lines of an enum.
fn add_enum(text: &mut Vec<u8>, name: &[u8], enumerators: &[Enumerator]) -> Result<(), NoMemory>
    ensures { OnOk result (text.new.items ≡ text.old.items
        ++ body_lines name.now (Enum (map view_enumerator enumerators.now))) }
{
    add(text, &[b"enum ", name, b" {\n"])?;
    add_enumerators(text, enumerators)?;
    add(text, &[b"};\ntypedef enum ", name, b" ", name, b";\n"])
}

/// Adds the lines of a struct.
fn add_struct(
    alloc: Global,
    text: &mut Vec<u8>,
    name: &[u8],
    declarations: &[Declaration],
) -> Result<(), NoMemory>
    ensures { OnOk result (text.new.items ≡ text.old.items
        ++ body_lines name.now (Struct (view_declarations declarations.now))) }
{
    add(text, &[b"struct ", name, b" {\n"])?;
    add_fields(alloc, text, name, declarations)?;
    text.extend_from_slice(b"};\n")?;
    Ok(())
}

/// Adds the lines of a union.
fn add_union(
    alloc: Global,
    text: &mut Vec<u8>,
    name: &[u8],
    body: &UnionBody,
) -> Result<(), NoMemory>
    ensures { OnOk result (text.new.items ≡ text.old.items ++ body_lines name.now (view_union body.now)) }
{
    add(text, &[b"struct ", name, b" {\n"])?;
    add_member(alloc, text, b"    ", name, &body.discriminant)?;
    add_union_lines(alloc, text, name, &body.arms, &body.default)?;
    text.extend_from_slice(b"};\n")?;
    Ok(())
}

/// Adds the lines of a type's own.
#[tactic(auto, using(x_trees::proofs::Rows::struct_view))]
fn add_body(alloc: Global, text: &mut Vec<u8>, name: &[u8], body: &Body) -> Result<(), NoMemory>
    ensures { OnOk result (text.new.items ≡ text.old.items ++ body_lines name.now (view_body body.now)) }
{
    match body {
        Body::Enum(enumerators) => add_enum(text, name, enumerators),
        Body::Struct(declarations) => add_struct(alloc, text, name, declarations),
        Body::Union(body) => add_union(alloc, text, name, body),
    }
}

/// Adds the piece of a type.
pub fn add_type(alloc: Global, text: &mut Vec<u8>, named: &NamedBody) -> Result<(), NoMemory>
    ensures { OnOk result (text.new.items ≡ text.old.items ++ type_header (view_named named.now)) }
{
    add_body(alloc, text, &named.name, named.body)?;
    add_routine_line(text, &named.name)?;
    text.extend_from_slice(b"\n")?;
    Ok(())
}

/// Adds the piece of a `typedef`.
pub fn add_typedef(
    alloc: Global,
    text: &mut Vec<u8>,
    declaration: &Declaration,
) -> Result<(), NoMemory>
    ensures { OnOk result
        (text.new.items ≡ text.old.items ++ typedef_header (view_declaration declaration.now)) }
{
    if declaration.is_void() {
        return Ok(());
    }
    let name = declaration.name();
    text.extend_from_slice(b"typedef ")?;
    add_declaration(alloc, text, name, declaration)?;
    text.extend_from_slice(b";\n")?;
    add_routine_line(text, name)?;
    text.extend_from_slice(b"\n")?;
    Ok(())
}
