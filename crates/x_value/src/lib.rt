//! The reader of values (RFC 4506, section 4): [`dump`] reads the bytes of a value by its type, and gives its
//! nodes, or tells where and why the bytes are no encoding of the type.
#![tactic(auto)]

mod fault;
mod laws;
mod nodes;
mod reading;
mod values;

pub use fault::{ReadCode, ReadFault};
pub use laws::{enc_law, one_reading};
pub use nodes::{Dump, Label, Leaf, Node, Nodes, add_hex, add_number};
pub use reading::{MOST_LINKS, dump};
pub use values::dump_value;
