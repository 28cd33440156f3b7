//! The bytes of a word.
use smallvec::SmallVec;

/// How a name or a number is written. One of at most 16 bytes lies in the tree itself.
pub type Spelling = SmallVec<u8, 16>;
