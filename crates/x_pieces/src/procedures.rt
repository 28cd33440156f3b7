//! The procedures of a program as C has them.

ghost use Rattle.std.specs.Prelude.{◌≡◌, ◌++◌, List, ℕ, map, OnOk, IfOk};
ghost use Rattle.std.specs.Fmt.{decimal};
ghost use Rattle.std.specs.List.{flat_map};
ghost use Rattle.x_trees.specs.Tree.{Procedure as ItsProcedure};
ghost use Rattle.x_trees.specs.View.{view_argument, view_passed, view_procedure, view_version};
ghost use Rattle.x_pieces.specs.Procedures.{lower_byte, lower, in_decimal, function_name, group_name};
ghost use Rattle.x_pieces.specs.Procedures.{argument_in, are_several};
ghost use Rattle.x_pieces.specs.Procedures.{by_names, version_pieces, by_number, argument_pieces};
ghost use Rattle.x_pieces.specs.CTypes.{CType as ItsType};
ghost use Rattle.x_pieces.specs.Views.{view_c};

use crate::add::{Made, made};
use crate::c_types::{CType, argument_type, own, passed_type};
use itoa::Buffer;
use std::alloc::Global;
use x_numbers::number_value;
use x_text::NoMemory;
use x_trees::{Argument, Procedure, Version};

/// A letter in lower case.
fn lower_byte(byte: u8) -> u8
    ensures { result ≡ lower_byte byte }
{
    match byte {
        b'A'..=b'Z' => byte + 32,
        _ => byte,
    }
}

/// Adds a name in lower case.
pub fn add_lower(text: &mut Vec<u8>, name: &[u8]) -> Result<(), NoMemory>
    ensures { OnOk result (text.new.items ≡ text.old.items ++ lower name.now) }
{
    for byte in name {
        text.push(lower_byte(*byte))?;
    }
    Ok(())
}

/// Adds a number in decimal, however it is spelled.
pub fn add_decimal(text: &mut Vec<u8>, number: &[u8]) -> Result<(), NoMemory>
    ensures { OnOk result (text.new.items ≡ text.old.items ++ in_decimal number.now) }
{
    match number_value(number) {
        Some(value) => {
            let mut buffer = Buffer::new();
            text.extend_from_slice(buffer.format(value).as_bytes())?;
            Ok(())
        }
        None => Ok(()),
    }
}

/// How many bytes stand behind the name in that of a function: `_` and a number of 32 bits.
const MOST_BEHIND_NAME: usize = 11;

/// The names that C has for a procedure.
#[derive(Drop)]
pub struct Call {
    /// The function: the name in lower case, and the version's number.
    pub function: Vec<u8>,
    /// The struct of several arguments.
    pub group: Made,
}

impl Call {
    /// The names of a procedure of a version.
    pub fn of(alloc: Global, version: &Version, procedure: &Procedure) -> Result<Call, NoMemory>
        ensures function { IfOk result (λ call. call.function.items
            ≡ function_name (view_version version.now) (view_procedure procedure.now)) }
        ensures group { IfOk result (λ call. call.group.items
            ≡ group_name (view_version version.now) (view_procedure procedure.now)) }
    {
        let mut function = Vec::with_capacity(
            alloc,
            procedure.name.len().saturating_add(MOST_BEHIND_NAME),
        )?;
        add_lower(&mut function, &procedure.name)?;
        function.push(b'_')?;
        add_decimal(&mut function, &version.number)?;
        let group = made(alloc, &[&function, b"_argument"])?;
        Ok(Call { function, group })
    }
}

/// What is passed to the function: several arguments in the struct of this name.
pub fn argument_in<'d>(group: &'d [u8], procedure: &'d Procedure) -> CType<'d>
    ensures { view_c result ≡ argument_in group.now (view_procedure procedure.now) }
{
    if procedure.others.is_empty() {
        passed_type(&procedure.first)
    } else {
        own(group)
    }
}

/// What is generated of a procedure.
pub trait ProcedurePiece {
    ghost piece: { Self → List ℕ → List ℕ → ItsProcedure → List ℕ };

    /// Adds it, by the names that C has for the procedure.
    fn add(&self, text: &mut Vec<u8>, call: &Call, procedure: &Procedure) -> Result<(), NoMemory>
        ensures { OnOk result (text.new.items ≡ text.old.items
            ++ piece self.now call.now.function.items call.now.group.items (view_procedure procedure.now)) };
}

/// Adds what is generated of each procedure of a version.
pub fn add_procedures<P: ProcedurePiece>(
    alloc: Global,
    text: &mut Vec<u8>,
    piece: &P,
    version: &Version,
) -> Result<(), NoMemory>
    ensures { OnOk result (text.new.items ≡ text.old.items
        ++ flat_map (by_names (P.piece piece.now) (view_version version.now))
        (view_version version.now).procedures) }
{
    for procedure in &version.procedures {
        let call = Call::of(alloc, version, procedure)?;
        piece.add(text, &call, procedure)?;
    }
    Ok(())
}

/// Adds what is generated of each procedure of each version.
pub fn add_versions<P: ProcedurePiece>(
    alloc: Global,
    text: &mut Vec<u8>,
    piece: &P,
    versions: &[Version],
) -> Result<(), NoMemory>
    ensures { OnOk result (text.new.items ≡ text.old.items
        ++ version_pieces (P.piece piece.now) (map view_version versions.now)) }
{
    for version in versions {
        add_procedures(alloc, text, piece, version)?;
    }
    Ok(())
}

/// What is generated of one of several arguments.
pub trait ArgumentPiece {
    ghost piece: { Self → List ℕ → ItsType → List ℕ };

    /// Adds it, by the number of the argument in decimal.
    fn add(&self, text: &mut Vec<u8>, number: &[u8], c: CType) -> Result<(), NoMemory>
        ensures { OnOk result (text.new.items
            ≡ text.old.items ++ piece self.now number.now (view_c c.entry)) };
}

/// Adds what is generated of the argument of this number.
fn add_numbered<P: ArgumentPiece>(
    text: &mut Vec<u8>,
    piece: &P,
    number: u128,
    c: CType,
) -> Result<(), NoMemory>
    ensures { OnOk result (text.new.items ≡ text.old.items
        ++ P.piece piece.now (decimal number) (view_c c.entry)) }
{
    let mut buffer = Buffer::new();
    piece.add(text, buffer.format(number).as_bytes(), c)
}

/// Adds what is generated of the arguments behind the first.
fn add_others<P: ArgumentPiece>(
    text: &mut Vec<u8>,
    piece: &P,
    others: &[Argument],
) -> Result<(), NoMemory>
    ensures { OnOk result (text.new.items ≡ text.old.items
        ++ by_number (P.piece piece.now) 2 (map view_argument others.now)) }
{
    for (index, argument) in others.iter().enumerate() {
        add_numbered(text, piece, index as u128 + 2, argument_type(argument))?;
    }
    Ok(())
}

/// Adds what is generated of each argument of a procedure that has several.
pub fn add_arguments<P: ArgumentPiece>(
    text: &mut Vec<u8>,
    piece: &P,
    procedure: &Procedure,
) -> Result<(), NoMemory>
    ensures { OnOk result (text.new.items ≡ text.old.items
        ++ argument_pieces (P.piece piece.now) (view_procedure procedure.now)) }
{
    add_numbered(text, piece, 1, passed_type(&procedure.first))?;
    add_others(text, piece, &procedure.others)
}
