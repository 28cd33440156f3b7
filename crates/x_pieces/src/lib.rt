//! What is generated of a definition, in C ([`PieceMaker`]), and the four texts of a whole `.x` file
//! ([`write_text`]).
#![tactic(auto)]

mod add;
mod c_types;
mod declaration;
mod header;
mod piece_list;
mod pieces;
mod procedures;
mod program_header;
mod prologue;
mod rendering;
mod routines;
mod stubs;
mod table;
mod text;
mod types;
mod which;

pub use piece_list::PieceList;
pub use pieces::Pieces;
pub use rendering::PieceMaker;
pub use text::{add_text, text_length, write_text};
pub use which::Which;
