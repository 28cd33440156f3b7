//! The type of C and the XDR routine of each type.

ghost use Rattle.std.specs.Prelude.{◌≡◌, Some, IfOk};
ghost use Rattle.x_trees.specs.Gloss.{lifted_name};
ghost use Rattle.x_trees.specs.View.{view_type, view_argument, view_passed, view_value, view_most};
ghost use Rattle.x_pieces.specs.CTypes.{own, basic_type, c_type, passed_type, spelled, most};
ghost use Rattle.x_pieces.specs.Views.{view_c};

use std::alloc::Global;
use x_text::NoMemory;
use x_trees::{Argument, Basic, DataType, Value, lifted_name};

/// A type as C has it.
#[derive(Clone, Copy, Debug)]
pub struct CType<'d> {
    /// Its name.
    pub name: &'d [u8],
    /// The name of its routine, behind `xdr_`.
    pub routine: &'d [u8],
}

/// A type whose routine has its name.
pub fn own(name: &[u8]) -> CType<'_>
    ensures { view_c result ≡ own name.now }
{
    CType {
        name,
        routine: name,
    }
}

/// The type that is spelled by keywords alone.
fn basic_type(basic: Basic) -> CType<'static>
    ensures { view_c result ≡ basic_type basic }
{
    match basic {
        Basic::Int => own(b"int"),
        Basic::Unsigned | Basic::UnsignedInt => own(b"u_int"),
        Basic::Long => own(b"long"),
        Basic::UnsignedLong => own(b"u_long"),
        Basic::Hyper => own(b"quad_t"),
        Basic::UnsignedHyper => own(b"u_quad_t"),
        Basic::Float => own(b"float"),
        Basic::Double => own(b"double"),
        Basic::Quadruple => own(b"quadruple"),
        Basic::Bool => CType {
            name: b"bool_t",
            routine: b"bool",
        },
    }
}

/// The type, which has this lifted name where it is an inline one.
pub fn c_type<'d>(lifted: &'d [u8], typed: &'d DataType) -> CType<'d>
    ensures { view_c result ≡ c_type lifted.now (view_type typed.now) }
{
    match typed {
        DataType::Basic(basic) => basic_type(*basic),
        DataType::Named(name) => own(name),
        DataType::Tagged { name, .. } => own(name),
        DataType::Inline(_) => own(lifted),
    }
}

/// The lifted name of a type that stands in the declaration of `name`, inside the type that `around` names:
/// nothing, where the type is no inline one.
pub fn lifted(
    alloc: Global,
    around: &[u8],
    name: &[u8],
    typed: &DataType,
) -> Result<Vec<u8>, NoMemory>
    ensures { IfOk result (λ lifted. c_type lifted.items (view_type typed.now)
        ≡ c_type (lifted_name around.now name.now) (view_type typed.now)) }
{
    match typed {
        DataType::Inline(_) => lifted_name(alloc, around, name),
        _ => Ok(Vec::new(alloc)),
    }
}

/// The type of an argument or a result.
pub fn passed_type(passed: &Option<Argument>) -> CType<'_>
    ensures { view_c result ≡ passed_type (view_passed passed.now) }
{
    match passed {
        None => own(b"void"),
        Some(argument) => argument_type(argument),
    }
}

/// The type of an argument or a result that is there.
pub fn argument_type(argument: &Argument) -> CType<'_>
    ensures { view_c result ≡ passed_type (Some (view_argument argument.now)) }
{
    match argument {
        Argument::String => CType {
            name: b"char *",
            routine: b"wrapstring",
        },
        Argument::Of(typed) => c_type(b"", typed),
    }
}

/// How a value is spelled.
pub fn spelled(value: &Value) -> &[u8]
    ensures { result.now ≡ spelled (view_value value.now) }
{
    match value {
        Value::Number(text) => text,
        Value::Named(text) => text,
    }
}

/// The greatest length of what has one, as C has it.
pub fn most(value: &Option<Value>) -> &[u8]
    ensures { result.now ≡ most (view_most value.now) }
{
    match value {
        Some(value) => spelled(value),
        None => b"~0",
    }
}
