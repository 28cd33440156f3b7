//! The lines of a script, read from a tap that gives its bytes in any pieces: each at most as long as its
//! limit, with what is too long passed over.
#![tactic(auto)]

mod byte_queue;
mod lines;

pub use lines::{LONGEST, LineEvent, LineFault, LineReader};
