//! Who declares each name first ([`Names`]).
#![tactic(auto)]

mod laws;
mod names;

pub use laws::one_first_declarer;
pub use names::{Declarer, Names, is_beforehand};
