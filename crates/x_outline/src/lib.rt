//! What stands in a definition, by its words ([`Outline`]): its names, its bodies, and what its words are to
//! the rules; and the versions of a program and their procedures ([`members`]).
#![tactic(auto)]

mod bodies;
mod outline;
mod parts;
mod programs;

pub use bodies::words_of_enumerator;
pub use outline::Outline;
pub use parts::{BodyAt, EnumeratorAt, Members, NameAt, NumberAt, ValueAt};
pub use programs::members;
