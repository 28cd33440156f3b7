//! The text of a `.x` file, its edits and lines, and the counts of the work done on it.

mod edit;
mod fault;
mod lines;
mod meter;
mod source;
mod text_buffers;

pub use edit::Edit;
pub use fault::TextFault;
pub use lines::Lines;
pub use meter::Meter;
pub use source::{MAX_TEXT, Source};
pub use text_buffers::TextBuffers;
