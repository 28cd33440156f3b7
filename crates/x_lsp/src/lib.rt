//! A language server of `.x` files (LSP 3.17): what is said to each message of a client, and a conversation
//! with it.
#![tactic(auto)]

mod answer;
mod heap_floor;
mod running;
mod said;
mod server;
mod serving;

pub use answer::Answer;
pub use running::serve_run;
pub use said::Said;
pub use server::Server;
pub use serving::{ServeFault, serve};
