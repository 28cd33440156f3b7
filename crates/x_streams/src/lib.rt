//! Where bytes come from and go to: taps and sinks, a pen that writes a text in parts, and how an engine ends
//! that reads a tap and writes to a sink.
#![tactic(auto)]

mod input;
mod mem_sink;
mod mem_tap;
mod out;
mod outcome;
mod outlet;
mod pen;
mod sink;
mod tap;

pub use input::In;
pub use mem_sink::MemSink;
pub use mem_tap::MemTap;
pub use out::Out;
pub use outcome::{EngineFault, Outcome};
pub use outlet::Outlet;
pub use pen::{Pen, WriteFault};
pub use sink::{Broken, Sink};
pub use tap::Tap;
