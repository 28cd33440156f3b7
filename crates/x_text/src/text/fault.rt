//! Why a text or an edit is refused.
use thiserror::Error;

/// Why a text was not taken. The number of each is its code.
#[derive(Clone, Copy, Debug, PartialEq, Eq, Error)]
pub enum TextFault {
    /// The range of an edit does not lie within the text.
    #[error("1 BadRange")]
    BadRange = 1,
    /// The text would be longer than [`crate::MAX_TEXT`] bytes.
    #[error("2 TooLarge")]
    TooLarge = 2,
    /// Memory ran out.
    #[error("3 NoMemory")]
    NoMemory = 3,
}
