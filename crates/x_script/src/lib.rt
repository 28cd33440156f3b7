//! Scripts of edits and questions, carried out over a text that stays open.
#![tactic(auto)]

mod script;

pub use script::{Command, Insert, ScriptFile, dump_words, parse_command, run_script};
pub use x_lines::{LONGEST, LineEvent, LineFault, LineReader};
pub use x_text::{EngineFault, Outcome};
