//! Parts of a text.

use crate::positions::Position;

/// A part of a text.
#[derive(Clone, Copy, Debug, PartialEq, Eq)]
pub struct Range {
    /// The position of its first character.
    pub start: Position,
    /// The position behind its last one.
    pub end: Position,
}
