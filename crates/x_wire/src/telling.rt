//! What is printed of recorded calls: a stream of them, or one message.

mod body;
mod calls;
mod dumper;
mod heading;
mod laws;
mod lines;
mod single;
mod stream;
mod teller;

pub use laws::one_text;
pub use single::dump_message;
pub use stream::dump_stream;
