//! The names of a text that clash in C, at their places in the text ([`warnings`]), and the lines that tell
//! them ([`add_warnings`]).
#![tactic(auto)]

mod finding;
mod lines;
mod warning;

pub use finding::warnings;
pub use lines::{add_warnings, kind_text};
pub use warning::{OtherMeaning, Warning};
