//! What a whole document contains, for an editor (LSP 3.17): what it defines, which of its lines fold, what
//! each of its tokens is, and what is generated of it.
#![tactic(auto)]

mod answers;
mod folds;
mod found;
mod generated;
mod phrased_text;
mod phrases;
mod string_text;
mod symbols;
mod tokens;
mod wanted;

pub use answers::answer_about_document;
pub use found::Found;
pub use phrased_text::PhrasedText;
pub use wanted::Wanted;
