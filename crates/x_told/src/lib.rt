//! Which faults of an open text an editor is told: where the lines of the C preprocessor are blanked, none
//! that a name is declared again in a later branch, and none that follows from such ones alone. And which of
//! these it is shown, where there are many: errors before what follows from them.
#![tactic(auto)]

mod choosing;
mod telling;

pub use choosing::{ChosenFaults, chosen_faults};
pub use telling::word_at;
