//! Parts of a definition, each with the number of its word.

use x_trees::{Body, Enumerator, Value};

/// A name.
#[derive(Clone, Copy, Debug)]
pub struct NameAt<'d> {
    pub word: usize,
    pub name: &'d [u8],
}

/// A value.
#[derive(Clone, Copy)]
pub struct ValueAt<'d> {
    pub word: usize,
    pub value: &'d Value,
}

/// A number, as it is spelled.
#[derive(Clone, Copy, Debug)]
pub struct NumberAt<'d> {
    pub word: usize,
    pub text: &'d [u8],
}

/// A name of an enum with its value, and whether it is the first of its enum.
#[derive(Clone, Copy)]
pub struct EnumeratorAt<'d> {
    pub word: usize,
    pub enumerator: &'d Enumerator,
    pub is_first: bool,
}

/// A body: the word that declares its type's name, and its first word.
#[derive(Drop)]
pub struct BodyAt<'d> {
    pub named: usize,
    pub at: usize,
    pub body: &'d Body,
    /// The names of its fields, or of its discriminant, its arms and its default.
    pub fields: Vec<NameAt<'d>>,
    /// The values of its cases.
    pub cases: Vec<ValueAt<'d>>,
    /// The word behind the declaration of its discriminant.
    pub behind_discriminant: usize,
}

/// The names and the numbers of the versions of a program, or of the procedures of a version.
#[derive(Drop)]
pub struct Members<'d> {
    pub names: Vec<NameAt<'d>>,
    pub numbers: Vec<NumberAt<'d>>,
}
