//! The documents that a client has open (LSP 3.17, "Text Document Synchronization"): the changes that it
//! makes, what is compiled of their texts, what is published of them, and when one is out of step.
#![tactic(auto)]

mod carrying;
mod changes;
mod compiled;
mod diagnostics;
mod document;
mod documents;
mod kept;
mod names;
mod noting;
mod setting;
mod warned_names;

pub use changes::apply_change;
pub use diagnostics::{Hints, publish};
pub use document::OpenDocument;
pub use documents::Documents;
pub use kept::{KeptTexts, Reply, refused};
pub use setting::Setting;
