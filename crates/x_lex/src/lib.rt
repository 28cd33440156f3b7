//! The tokens of the text of a `.x` file: [`lex`] cuts a text into tokens that follow one another without a
//! gap, comments and white space among them, [`lex_one`] finds the one token at a place, and [`relex`] finds
//! what an edit does to the tokens.
#![tactic(auto)]

mod kind;
mod laws;
mod lexing;
mod mark;
mod relexing;
mod scan;
mod tokens;

pub use kind::Kind;
pub use laws::{
    has_tokens, one_meeting, one_patch, one_tiling, token_by_bytes, token_by_scan, tokens_by_place,
};
pub use lexing::lex;
pub use mark::Mark;
pub use relexing::relex;
pub use scan::{is_number, lex_one};
pub use tokens::{Patch, PatchedTokenIter, Token, TokenIter, Tokens};
