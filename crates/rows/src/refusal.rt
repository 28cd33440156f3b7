//! Why a case is refused.
use std::alloc::AllocError;
use x_text::{NoMemory, TextFault};

/// Why a case has no answer of its own.
#[derive(Clone, Copy)]
pub(crate) enum Refusal {
    /// It can't be read, or it asks for what no call can be asked for.
    BadCase,
    /// Two ways to the answer, which should lead to the same, do not.
    Differs,
    /// Memory ran out.
    NoMemory,
}

impl From<AllocError> for Refusal {
    fn from(_error: AllocError) -> Self {
        Refusal::NoMemory
    }
}

impl From<NoMemory> for Refusal {
    fn from(_error: NoMemory) -> Self {
        Refusal::NoMemory
    }
}

impl From<TextFault> for Refusal {
    fn from(fault: TextFault) -> Self {
        match fault {
            TextFault::NoMemory => Refusal::NoMemory,
            TextFault::BadRange | TextFault::TooLarge => Refusal::BadCase,
        }
    }
}

/// [`Refusal::Differs`] where the two are not equal.
pub(crate) fn expect_same(same: bool) -> Result<(), Refusal> {
    if same { Ok(()) } else { Err(Refusal::Differs) }
}
