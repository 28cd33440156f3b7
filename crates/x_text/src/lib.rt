//! The text of a `.x` file and its edits, and the counts of work done on it. Lists (`x_lists`), and the taps
//! and sinks that bytes come from and go to (`x_streams`), are offered here too.
#![tactic(auto)]

mod text;

pub use text::{Edit, Lines, MAX_TEXT, Meter, Source, TextBuffers, TextFault};
pub use x_lists::{
    GapIter, GapSeq, Measured, MeasuredSeq, NoMemory, PatchedIter, PlainSeq, Seq, SeqPatch,
};
pub use x_streams::{
    Broken, EngineFault, In, MemSink, MemTap, Out, Outcome, Outlet, Pen, Sink, Tap, WriteFault,
};
