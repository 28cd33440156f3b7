//! Faults as a compiler explains them: in a sentence, with the line of the text and a mark under the word.
#![tactic(auto)]

mod again;
mod excerpt;
mod explained;
mod facts;
mod foreign;
mod found;
mod known_files;
mod laws;
mod likeness;
mod lines;
mod sentences;
mod shown;
mod suggestions;

pub use explained::add_explained_faults;
pub use facts::{FaultFacts, FaultNames, Known};
pub use found::{FoundFault, fault_places, found_at, token_end};
pub use known_files::{FirstDeclaration, KnownFiles};
pub use laws::mark_under_word;
pub use sentences::{MEANT, MEANT_END, Sentence, sentence_of};
pub use shown::escape_of;
pub use suggestions::Suggestions;
