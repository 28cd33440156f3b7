//! The positions of a text's characters (LSP 3.17): a line and a character in it, both counted from 0.
#![tactic(auto)]

mod encoding;
mod laws;
mod marking;
mod places;
mod positions;
mod range;
mod spots;
mod values;
mod waymarks;

pub use encoding::Encoding;
pub use laws::positions_lead_back;
pub use marking::Marker;
pub use places::Places;
pub use positions::Position;
pub use range::Range;
pub use values::range_value;
pub use waymarks::Waymarks;
