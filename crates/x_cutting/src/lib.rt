//! How the tokens of a `.x` file are cut into items ([`cut`]), and what an edit does to the items
//! ([`recut`]).
#![tactic(auto)]

mod cutting;
mod laws;

pub use cutting::cut::cut;
pub use cutting::next_item::next_item;
pub use cutting::recut::recut;
pub use cutting::{ItemEntry, ItemPatch, Items};
pub use laws::{cut_by_roles, one_cut, one_recut};
