//! Want of memory.
use std::alloc::{AllocError, AllocFailed};
use thiserror::Error;

/// Memory ran out. What the call would have changed is as it was before, but for room that was made and what
/// a meter counted.
#[derive(Clone, Copy, Debug, PartialEq, Eq, Error)]
#[error("out of memory")]
pub struct NoMemory;

impl From<AllocError> for NoMemory {
    fn from(_error: AllocError) -> Self {
        NoMemory
    }
}

impl<T: Drop> From<AllocFailed<T>> for NoMemory {
    fn from(_error: AllocFailed<T>) -> Self {
        NoMemory
    }
}
