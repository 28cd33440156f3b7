//! Where bytes are refused, and why.
ghost use Rattle.std.specs.Prelude.{Some};
ghost use Rattle.x_value.specs.FaultTexts.{read_text};

use std::alloc::{AllocError, AllocFailed};
use std::fmt;
use thiserror::Error;
use x_text::NoMemory;

/// Why bytes are no value of a type.
#[derive(Clone, Copy, Debug, PartialEq, Eq)]
pub enum ReadCode {
    /// The bytes end inside a value.
    Short = 50,
    /// The word of a `bool`, or of an optional, is neither 0 nor 1 (RFC 4506, sections 4.4 and 4.19).
    BadBool,
    /// The enum has no enumerator of this number (section 4.3).
    BadEnum,
    /// The union has no arm for this discriminant (section 4.15).
    NoArm,
    /// A length or a count is over its limit (sections 4.10, 4.11 and 4.13).
    TooMany,
    /// The bytes that fill a unit up are not zero (section 3).
    BadPad,
    /// More than [`crate::MOST_LINKS`] links would be open.
    TooDeep,
    /// Bytes follow behind the value.
    Trailing,
    /// Memory ran out.
    NoMemory,
}

impl fmt::Display for ReadCode {
    ghost output = { λ code. Some (read_text code) };

    fn fmt<W: fmt::Write>(&self, f: &mut fmt::Formatter<W>) -> fmt::Result {
        f.write_str(self.text())
    }
}

/// Where bytes are refused, and why.
#[derive(Clone, Copy, Debug, PartialEq, Eq, Error)]
#[error("{code} at {at}")]
pub struct ReadFault {
    /// The place, in bytes from the first of the value; 0 where memory ran out.
    pub at: usize,
    /// The reason.
    pub code: ReadCode,
}

/// Memory ran out.
pub(crate) const OUT_OF_MEMORY: ReadFault = ReadFault {
    at: 0,
    code: ReadCode::NoMemory,
};

impl From<NoMemory> for ReadFault {
    ghost use Rattle.std.specs.Prelude.{◌≡◌};
    ghost use Rattle.x_value.specs.declared.fault.ReadCode.TheVariants.{NoMemory};

    ghost from_gives = { λ _ fault. (fault.at ≡ 0) × (fault.code ≡ NoMemory) };

    fn from(_error: NoMemory) -> Self {
        OUT_OF_MEMORY
    }
}

impl From<AllocError> for ReadFault {
    ghost use Rattle.std.specs.Prelude.{◌≡◌};
    ghost use Rattle.x_value.specs.declared.fault.ReadCode.TheVariants.{NoMemory};

    ghost from_gives = { λ _ fault. (fault.at ≡ 0) × (fault.code ≡ NoMemory) };

    fn from(_error: AllocError) -> Self {
        OUT_OF_MEMORY
    }
}

impl<T: Drop> From<AllocFailed<T>> for ReadFault {
    ghost use Rattle.std.specs.Prelude.{◌≡◌};
    ghost use Rattle.x_value.specs.declared.fault.ReadCode.TheVariants.{NoMemory};

    ghost from_gives = { λ _ fault. (fault.at ≡ 0) × (fault.code ≡ NoMemory) };

    fn from(_error: AllocFailed<T>) -> Self {
        OUT_OF_MEMORY
    }
}
