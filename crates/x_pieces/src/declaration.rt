//! How C declares what a declaration declares, and how its XDR routine calls those of its parts.

ghost use Rattle.std.specs.Prelude.{◌≡◌, ◌++◌, OnOk, IfOk};
ghost use Rattle.x_trees.specs.Tree.{Array, String};
ghost use Rattle.x_trees.specs.View.{view_shape, view_length, view_most, view_declaration};
ghost use Rattle.x_pieces.specs.Declarations.{declared_array, declared_as, c_declaration, lies_at};
ghost use Rattle.x_pieces.specs.Declarations.{array_call, call_as, opaque_call, call_at, call};
ghost use Rattle.x_pieces.specs.Views.{view_c, view_location};

use crate::add::{Made, add, made};
use crate::c_types::{CType, c_type, lifted, most, spelled};
use std::alloc::Global;
use x_text::NoMemory;
use x_trees::{Declaration, Length, Shape};

/// Where a value lies that a routine reads or writes.
#[derive(Clone, Copy, Debug)]
pub enum Location<'d> {
    /// In a field of a struct.
    InStruct,
    /// In an arm of the union of this name.
    InUnion(&'d [u8]),
    /// By itself.
    Alone,
}

/// Adds elements of a type as C declares them.
fn add_array(text: &mut Vec<u8>, c: &[u8], name: &[u8], length: &Length) -> Result<(), NoMemory>
    ensures { OnOk result (text.new.items ≡ text.old.items
        ++ declared_array c.now name.now (view_length length.now)) }
{
    match length {
        Length::Fixed(size) => add(text, &[c, b" ", name, b"[", spelled(size), b"]"]),
        Length::Variable(_) => add(
            text,
            &[
                b"struct { u_int ",
                name,
                b"_len; ",
                c,
                b" *",
                name,
                b"_val; } ",
                name,
            ],
        ),
    }
}

/// Adds the name with what stands around it.
fn add_shaped(text: &mut Vec<u8>, c: &[u8], name: &[u8], shape: &Shape) -> Result<(), NoMemory>
    ensures { OnOk result
        (text.new.items ≡ text.old.items ++ declared_as c.now name.now (view_shape shape.now)) }
{
    match shape {
        Shape::Plain => add(text, &[c, b" ", name]),
        Shape::Optional => add(text, &[c, b" *", name]),
        Shape::Array(length) => add_array(text, c, name, length),
    }
}

/// Adds the declaration in C, inside the type that `around` names.
pub fn add_declaration(
    alloc: Global,
    text: &mut Vec<u8>,
    around: &[u8],
    declaration: &Declaration,
) -> Result<(), NoMemory>
    ensures { OnOk result (text.new.items ≡ text.old.items
        ++ c_declaration around.now (view_declaration declaration.now)) }
{
    match declaration {
        Declaration::Void => Ok(()),
        Declaration::Of { data, name, shape } => {
            let lifted = lifted(alloc, around, name, data)?;
            add_shaped(text, c_type(&lifted, data).name, name, shape)
        }
        Declaration::Opaque { name, length } => add_array(text, b"char", name, length),
        Declaration::String { name, .. } => add(text, &[b"char *", name]),
    }
}

/// Where the value lies that is declared as `name`, in C.
fn lies_at(alloc: Global, place: Location, name: &[u8]) -> Result<Made, NoMemory>
    ensures { IfOk result (λ e. e.items ≡ lies_at (view_location place.entry) name.now) }
{
    match place {
        Location::InStruct => made(alloc, &[b"objp->", name]),
        Location::InUnion(union) => made(alloc, &[b"objp->", union, b"_u.", name]),
        Location::Alone => made(alloc, &[b"(*objp)"]),
    }
}

/// Adds the call for elements at the place `e`, which are declared as `name`.
fn add_array_call(
    text: &mut Vec<u8>,
    c: CType,
    e: &[u8],
    name: &[u8],
    length: &Length,
) -> Result<(), NoMemory>
    ensures { OnOk result (text.new.items ≡ text.old.items
        ++ array_call (view_c c.entry) e.now name.now (view_length length.now)) }
{
    match length {
        Length::Fixed(size) => add(
            text,
            &[
                b"xdr_vector(xdrs, (char *)",
                e,
                b", ",
                spelled(size),
                b", sizeof (",
                c.name,
                b"), (xdrproc_t)xdr_",
                c.routine,
                b")",
            ],
        ),
        Length::Variable(limit) => add(
            text,
            &[
                b"xdr_array(xdrs, (char **)&",
                e,
                b".",
                name,
                b"_val, &",
                e,
                b".",
                name,
                b"_len, ",
                most(limit),
                b", sizeof (",
                c.name,
                b"), (xdrproc_t)xdr_",
                c.routine,
                b")",
            ],
        ),
    }
}

/// Adds the call for a value at the place `e`, which is declared as `name`.
fn add_shaped_call(
    text: &mut Vec<u8>,
    c: CType,
    e: &[u8],
    name: &[u8],
    shape: &Shape,
) -> Result<(), NoMemory>
    ensures { OnOk result (text.new.items ≡ text.old.items
        ++ call_as (view_c c.entry) e.now name.now (view_shape shape.now)) }
{
    match shape {
        Shape::Plain => add(text, &[b"xdr_", c.routine, b"(xdrs, &", e, b")"]),
        Shape::Optional => add(
            text,
            &[
                b"xdr_pointer(xdrs, (char **)&",
                e,
                b", sizeof (",
                c.name,
                b"), (xdrproc_t)xdr_",
                c.routine,
                b")",
            ],
        ),
        Shape::Array(length) => add_array_call(text, c, e, name, length),
    }
}

/// Adds the call for opaque bytes at the place `e`, which are declared as `name`.
fn add_opaque_call(
    text: &mut Vec<u8>,
    e: &[u8],
    name: &[u8],
    length: &Length,
) -> Result<(), NoMemory>
    ensures { OnOk result (text.new.items ≡ text.old.items
        ++ opaque_call e.now name.now (view_length length.now)) }
{
    match length {
        Length::Fixed(size) => add(text, &[b"xdr_opaque(xdrs, ", e, b", ", spelled(size), b")"]),
        Length::Variable(limit) => add(
            text,
            &[
                b"xdr_bytes(xdrs, &",
                e,
                b".",
                name,
                b"_val, &",
                e,
                b".",
                name,
                b"_len, ",
                most(limit),
                b")",
            ],
        ),
    }
}

/// Adds the call for what is declared and lies at the place `e`, inside the type that `around` names.
fn add_call_at(
    alloc: Global,
    text: &mut Vec<u8>,
    around: &[u8],
    e: &[u8],
    declaration: &Declaration,
) -> Result<(), NoMemory>
    ensures { OnOk result (text.new.items ≡ text.old.items
        ++ call_at around.now e.now (view_declaration declaration.now)) }
{
    match declaration {
        Declaration::Void => Ok(()),
        Declaration::Of { data, name, shape } => {
            let lifted = lifted(alloc, around, name, data)?;
            add_shaped_call(text, c_type(&lifted, data), e, name, shape)
        }
        Declaration::Opaque { name, length } => add_opaque_call(text, e, name, length),
        Declaration::String { most: limit, .. } => {
            add(text, &[b"xdr_string(xdrs, &", e, b", ", most(limit), b")"])
        }
    }
}

/// Adds the call for what is declared and lies in this place, inside the type that `around` names.
pub fn add_call(
    alloc: Global,
    text: &mut Vec<u8>,
    around: &[u8],
    place: Location,
    declaration: &Declaration,
) -> Result<(), NoMemory>
    ensures { OnOk result (text.new.items ≡ text.old.items
        ++ call around.now (view_location place.entry) (view_declaration declaration.now)) }
{
    let e = lies_at(alloc, place, declaration.name())?;
    add_call_at(alloc, text, around, &e, declaration)
}
