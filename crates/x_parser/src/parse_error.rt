//! Why a part of an item was not read.
ghost use Rattle.std.specs.Prelude.{◌≡◌};

use crate::FaultCode;
use std::alloc::{AllocError, AllocFailed};

/// Why nothing was read.
#[derive(Drop)]
pub enum ParseError {
    /// Memory ran out.
    Memory,
    /// No spelling goes on with the first of the last `left` tokens.
    Stuck { left: usize, code: FaultCode },
    /// The words end within a spelling.
    AtEnd,
}

impl From<AllocError> for ParseError {
    ghost use Rattle.x_parser.specs.declared.parse_error.ParseError.TheVariants.{Memory};

    ghost from_gives = { λ _ e. e ≡ Memory };

    fn from(_error: AllocError) -> Self {
        ParseError::Memory
    }
}

impl<T: Drop> From<AllocFailed<T>> for ParseError {
    ghost use Rattle.x_parser.specs.declared.parse_error.ParseError.TheVariants.{Memory};

    ghost from_gives = { λ _ e. e ≡ Memory };

    fn from(_error: AllocFailed<T>) -> Self {
        ParseError::Memory
    }
}
