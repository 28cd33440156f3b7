//! What questions are about.

use x_prelude::FollowedText;
use x_text::Source;

/// A text that a client has open.
#[derive(Clone, Copy)]
pub struct OpenText<'d> {
    /// The name of its document.
    pub uri: &'d str,
    /// The text that the client has.
    pub shown: &'d Source,
    /// What is compiled of it.
    pub compiled: &'d FollowedText,
}
