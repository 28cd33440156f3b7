//! Laws of what stands before a text: behind known files that end whole it declares what the text lacks. It
//! holds nothing that runs.
#![tactic(auto)]

mod laws;

pub use laws::{
    compiled_as_one, compiled_as_one_exactly, files_end_whole, no_type_is_lacking,
    nothing_is_lacking, prelude_ends_whole, prelude_is_faultless, results_of_both,
    results_of_both_exactly,
};
