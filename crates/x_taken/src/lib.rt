//! The names that C, C++ and libtirpc have already ([`Taken`]).
#![tactic(auto)]

mod names;
mod taken;

pub use taken::{Taken, TakenAs};
