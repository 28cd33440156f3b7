//! Headers of messages (RFC 5531, sections 8 and 9).

mod fields;
mod laws;
mod parts;
mod reading;

pub use laws::{one_answer, one_fault, one_message};
pub use parts::{AcceptStat, Auth, Call, MOST_AUTH_BYTES, Message, MessageKind, RejectStat, Reply};
pub use reading::message;
