//! The names of a text over its edits: who declares and who sees each of them ([`Uses`]).
#![tactic(auto)]

mod uses;

pub use uses::{ItemSplice, Uses};
