//! Lists whose entries go and come by patches, and want of memory.
#![tactic(auto)]

mod gap_iter;
mod gap_seq;
mod measured;
mod measured_seq;
mod moves;
mod no_memory;
mod patched_iter;
mod plain_seq;
mod seq;
mod seq_patch;
mod shift;

pub use gap_iter::GapIter;
pub use gap_seq::GapSeq;
pub use measured::Measured;
pub use measured_seq::MeasuredSeq;
pub use no_memory::NoMemory;
pub use patched_iter::PatchedIter;
pub use plain_seq::PlainSeq;
pub use seq::Seq;
pub use seq_patch::SeqPatch;
