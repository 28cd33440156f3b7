//! The parser of the words of an item: the definition that they spell, or where no spelling goes on.
#![tactic(auto)]

mod cases;
mod complete;
mod declaration;
mod declarator;
mod definition;
mod ending;
mod enumerators;
mod fault_code;
mod parse_error;
mod program;
mod words;

pub use complete::complete_definition;
pub use fault_code::FaultCode;
pub use parse_error::ParseError;
pub use words::is_significant;
