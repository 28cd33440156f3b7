//! What is answered to an editor's questions about a place in an open text (LSP 3.17): what the name there
//! means, where it stands and how it is renamed, and which words can stand there.
#![tactic(auto)]

mod completion;
mod hover;
mod locations;
mod open_text;
mod params;
mod parts_told;
mod questions;
mod renaming;
mod written;

pub use open_text::OpenText;
pub use questions::answer_about_place;
