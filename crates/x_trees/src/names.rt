//! The names that a definition declares, those that it uses, and what its words are beside them.

mod declared_name;
mod glossary;
mod mention;
mod note;

pub use declared_name::{DeclaredName, NameKind, lifted_name};
pub use glossary::{Glossary, declares, mentions};
pub use mention::{Mention, Use};
pub use note::{Note, NoteAt, ValueRole};
