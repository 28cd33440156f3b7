//! The items of a text, and what an edit does to them.

pub mod cut;
mod cutter;
mod item_entry;
mod item_patch;
mod items;
pub mod next_item;
pub mod recut;

pub use item_entry::ItemEntry;
pub use item_patch::ItemPatch;
pub use items::Items;
