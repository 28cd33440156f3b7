//! The procedures of a text, as a call names them.

use crate::form::{FormIndex, NameIndex};
use crate::schema::TypeId;

/// The numbers that a call names a procedure by: those of a program, of its version and of the procedure in
/// that (RFC 5531, section 8).
#[derive(Clone, Copy, Debug, PartialEq, Eq, Hash)]
pub struct ProcedureNumbers {
    /// The program's number.
    pub program: u32,
    /// The version's number.
    pub version: u32,
    /// The procedure's number.
    pub procedure: u32,
}

/// Where a procedure stands among those of a schema.
pub type ProcedureIndex = usize;

/// A procedure, its parts by their places.
#[derive(Clone, Copy, Debug, PartialEq, Eq)]
pub(crate) struct CompactProcedure {
    /// Its name.
    pub(crate) name: NameIndex,
    /// What its arguments are.
    pub(crate) arguments: FormIndex,
    /// What its results are.
    pub(crate) results: FormIndex,
}

/// A procedure of a schema.
#[derive(Clone, Copy, Debug)]
pub struct Procedure<'s> {
    /// Its name.
    pub name: &'s [u8],
    /// Its arguments: several are a struct with the fields `arg1`, `arg2` and so on, and none are `void`.
    pub arg: TypeId,
    /// Its results, `void` where it has none.
    pub res: TypeId,
}
