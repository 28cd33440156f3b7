//! What words are to the rules.

use crate::trees::{Declaration, Value};

/// What a value is the value of.
#[derive(Clone, Copy, Debug, PartialEq, Eq)]
pub enum ValueRole {
    /// A constant.
    Constant,
    /// An enumerator.
    Enumerator,
    /// A case of a union.
    Case,
    /// The size of an array.
    FixedSize,
    /// The greatest size of an array.
    GreatestSize,
}

/// What a word is to the rules.
#[derive(Clone, Copy)]
pub enum Note<'d> {
    /// A value.
    Value { role: ValueRole, value: &'d Value },
    /// The number of a program, of a version or of a procedure.
    Number(&'d [u8]),
    /// A `void` where none may stand.
    Misplaced,
    /// The first word of the declaration of a discriminant.
    Discriminant(&'d Declaration),
    /// The first word of an inline type that is an argument or a result.
    InlineArgument,
}

/// What a word, counted from 0 among those of the definition, is to the rules.
#[derive(Clone, Copy)]
pub struct NoteAt<'d> {
    pub word: usize,
    pub note: Note<'d>,
}
