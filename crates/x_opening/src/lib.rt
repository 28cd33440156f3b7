//! The files that programs open: what stands before their texts, and what is told of them.
#![tactic(auto)]

mod base;
mod complaint;
mod known;
mod opening;
mod reading;
mod terminal;

pub use base::base_of_file;
pub use complaint::{tell_stop, tell_unopened};
pub use known::{KnownSources, open_followed};
pub use opening::{FaultStyle, Opening, open_text};
pub use reading::read_text;
pub use terminal::{explained_style, usual_style};
