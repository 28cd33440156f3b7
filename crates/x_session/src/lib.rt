//! A `.x` text that stays open: all that compiling it gives, its edits, where its words stand, and where its
//! names are declared first.
#![tactic(auto)]

mod declared;
mod fault_lines;
mod foreign;
mod laws;
mod session;

pub use declared::{DeclaredNames, FirstPlace, Spot, definitions, names};
pub use fault_lines::add_place;
pub use foreign::ForeignName;
pub use laws::{one_compilation, one_work};
pub use session::{SchemaFault, Session, Work};
pub use x_compile::{Fault, FaultCode, FaultPlace, FaultPlaces, Faults};
pub use x_gen::Which;
pub use x_sema::{RuleCode, Schema, TypeId};
pub use x_text::TextFault as EditFault;
