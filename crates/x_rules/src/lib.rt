//! What an item sees of a name ([`View`]), and what is wrong with a definition beyond its spelling, and what
//! its names mean ([`check_item`]).
#![tactic(auto)]

mod check;
mod checked;
mod fault;
mod laws;
mod numbers;
mod rules;
mod views;

pub use check::{check_item, check_outline};
pub use checked::Checked;
pub use fault::{RULE_TEXTS, RuleCode, WordFault};
pub use laws::{has_results, one_list_of_faults, one_list_of_results, one_outcome};
pub use numbers::Numbers;
pub use views::{Class, MOST_HEIGHT, Meaning, View};
pub use x_outline::Outline;
