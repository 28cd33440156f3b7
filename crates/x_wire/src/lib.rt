//! Remote procedure calls as they were recorded (RFC 5531): the records of a stream of bytes, the headers of
//! messages, and the text that is printed of them. What reads values is offered again.
#![tactic(auto)]

mod messages;
mod nfs2;
mod records;
mod telling;

pub use messages::{
    AcceptStat, Auth, Call, MOST_AUTH_BYTES, Message, MessageKind, RejectStat, Reply, message,
    one_answer, one_fault, one_message,
};
pub use nfs2::NFS2_X;
pub use records::{Fed, MAX_RECORD, RecordCode, RecordFault, Records, records_law};
pub use telling::{dump_message, dump_stream, one_text};
pub use x_schema::{Procedure, Schema, TypeId};
pub use x_text::{EngineFault, Outcome};
pub use x_value::{
    Dump, Label, Leaf, MOST_LINKS, Node, Nodes, ReadCode, ReadFault, add_hex, dump, dump_value,
    enc_law, one_reading,
};
