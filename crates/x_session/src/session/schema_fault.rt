//! Why a text has no schema.
use thiserror::Error;

/// Why a text has no schema.
#[derive(Clone, Copy, Debug, PartialEq, Eq, Error)]
pub enum SchemaFault {
    /// The text has a fault.
    #[error("40 Faulty")]
    Faulty = 40,
    /// Memory ran out.
    #[error("41 NoMemory")]
    NoMemory = 41,
}
