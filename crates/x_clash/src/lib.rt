//! The names of a text that clash in C ([`clashes`]): which names the generated texts give to C, and which of
//! them two things have, or C has already.
#![tactic(auto)]

mod clash;
mod firsts;
mod given;
mod members;
mod names;
mod programs;
mod search;
mod types;

pub use clash::{Clash, Place, Rival};
pub use search::clashes;
