//! The types of a text, as values are read by them ([`Schema`]), and its procedures.
#![tactic(auto)]

mod constants;
mod form;
mod maker;
mod procedure;
mod procedures;
mod schema;

pub use form::{Arm, Arms, Enumerators, Field, Form, FormIndex, LinkIndex, NameIndex};
pub use procedure::{Procedure, ProcedureIndex, ProcedureNumbers};
pub use schema::{Root, Schema, TypeId};
