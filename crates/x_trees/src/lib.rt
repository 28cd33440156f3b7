//! The trees of the definitions of a `.x` file, how they are spelled, and the names that a definition
//! declares and uses.
#![tactic(auto)]

mod laws;
mod names;
mod trees;

pub use laws::gloss_law;
pub use names::{
    DeclaredName, Glossary, Mention, NameKind, Note, NoteAt, Use, ValueRole, declares, lifted_name,
    mentions,
};
pub use trees::{
    Argument, Arm, Basic, Body, DataType, Declaration, Definition, Enumerator, Length, MOST_INLINE,
    Procedure, Shape, Spelling, Tag, UnionBody, Value, Version, fitted, inline, struct_body,
    union_body,
};
