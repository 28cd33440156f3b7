//! How it ended when bytes of a tap were answered on a sink.

ghost use Rattle.std.specs.Prelude.{◌≡◌, ◌||◌};
ghost use Rattle.x_streams.specs.Engines.{is_refused};

use thiserror::Error;

/// How a run of an engine ended: of a script of edits, or of what prints recorded calls.
#[derive(Clone, Copy, Debug, PartialEq, Eq)]
pub enum Outcome {
    /// All was carried out, or printed without a fault.
    Clean,
    /// A line was refused, or a fault was printed.
    Refused,
}

impl Outcome {
    /// The outcome of what was refused, or was not.
    pub fn of(refused: bool) -> Outcome
        ensures { is_refused result ≡ refused }
    {
        if refused {
            Outcome::Refused
        } else {
            Outcome::Clean
        }
    }

    /// The outcome with one part more.
    pub fn with(self, refused: bool) -> Outcome
        ensures { is_refused result ≡ (is_refused self || refused) }
    {
        if refused { Outcome::Refused } else { self }
    }
}

/// Why an engine stopped, and how many bytes of its answers were written.
#[derive(Clone, Copy, Debug, PartialEq, Eq, Error)]
pub enum EngineFault {
    /// The tap could not be read on.
    #[error("a read failed, with {written} bytes written")]
    Read { written: u64 },
    /// An answer could not be written.
    #[error("a write failed after {written} bytes")]
    Write { written: u64 },
    /// Memory ran out.
    #[error("out of memory, with {written} bytes written")]
    NoMemory { written: u64 },
}
