//! A token as it is lent.
use crate::Kind;

/// A token, where it stands in its text, and its bytes.
#[derive(Clone, Copy, Debug)]
pub struct Token<'a> {
    /// What kind of word it is.
    pub kind: Kind,
    /// The place of its first byte.
    pub start: usize,
    /// The place behind its last byte.
    pub end: usize,
    /// The bytes of the text from `start` to before `end`.
    pub text: &'a [u8],
}
