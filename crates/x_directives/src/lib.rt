//! The directives of the C preprocessor in the text of a `.x` file that it has not seen: [`blanked`] gives
//! the text without them, in which nothing moves, [`conditionals`] the places of `#if` and its kin,
//! [`LaterBranches`] which places stand in a later branch of these, and [`defined`] the constants that
//! `#define` gives. [`has_no_hash`] finds out fast that there is none of all this. [`edit_between`] finds the
//! edit that leads from one text to another.
#![tactic(auto)]

mod between;
mod blanking;
mod branches;
mod comments;
mod conditions;
mod constants;
mod laws;
mod lines;
mod words;

pub use between::edit_between;
pub use blanking::blanked;
pub use branches::LaterBranches;
pub use conditions::{Conditional, conditionals};
pub use constants::{Constant, defined};
pub use laws::{
    blanked_length, blanked_line_feeds, comments_stay, other_lines_stay, plain_text_stays,
};
pub use lines::has_no_hash;
