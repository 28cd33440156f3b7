//! What `rpcgen` does: its runs, and what they tell.
#![tactic(auto)]

mod rpcgen;

pub use rpcgen::{Output, OutputFault, Screen, check_run, gen_open, gen_run, gen_write};
