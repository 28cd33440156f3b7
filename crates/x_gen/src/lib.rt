//! What is generated of a definition that has no fault, in C ([`render`]). The four texts of a whole `.x`
//! file ([`write_text`]) and what they are made of (`x_pieces`) are offered here too.
#![tactic(auto)]

mod rendering;

pub use rendering::{Renderer, render};
pub use x_pieces::{PieceList, Pieces, Which, add_text, text_length, write_text};
