//! What a client is told of a text's faults, and of its names that clash in C (LSP 3.17,
//! `textDocument/publishDiagnostics`): the messages, how much they matter, the other places that do, how many
//! faults are not shown, and the text of the note.
#![tactic(auto)]

mod client;
mod fault_messages;
mod more_faults;
mod other_places;
mod published;
mod warnings;

pub use client::{Client, client_in};
pub use fault_messages::{FaultMessage, FaultMessages, branch_message, foreign_message};
pub use more_faults::unshown;
pub use other_places::OtherPlaces;
pub use published::{Diagnostic, Message, Place, Severity, place_of, published_text, severity_of};
pub use warnings::warned;
