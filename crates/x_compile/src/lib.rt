//! What compiling a `.x` text from scratch gives, and what is kept of it ([`compile`]): its tokens, and its
//! items with what each parses to, what checking it finds and what is generated of it; and its faults
//! ([`Faults`], and [`FaultPlaces`] without their lines).
#![tactic(auto)]

mod checking;
mod compiling;
mod content;
mod fault;
mod faults;
mod item_faults;
mod item_table;
mod item_walk;
mod keeping;
mod known;
mod lines;
mod parsing;
mod reader;

pub use checking::{new_pieces, sum_of};
pub use compiling::{Compilation, compile};
pub use content::{CheckResult, Content, byte_count};
pub use fault::{Fault, FaultCode, FaultPlace};
pub use faults::{FaultPlaces, Faults};
pub use item_table::ItemTable;
pub use known::KnownDefinitions;
