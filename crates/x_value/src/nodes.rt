//! What a value is shown as.

mod compact_leaf;
mod compact_node;
mod lines;

pub(crate) use compact_leaf::{compact_body, compact_discriminant, compact_enumerator};
pub use compact_node::{Dump, Nodes};
pub(crate) use compact_node::{CompactLabel, CompactLeaf, CompactNode};
pub use lines::{add_hex, add_number};

/// What stands before a node's text.
#[derive(Clone, Copy, Debug)]
pub enum Label<'a> {
    /// The declared name of a type, a field, a discriminant or an arm.
    Name(&'a [u8]),
    /// The place of an element in its array, from 0.
    Index(u32),
    /// What a link leads to.
    Star,
    /// The arguments of a procedure.
    Arguments,
    /// The results of a procedure.
    Results,
}

/// What stands at a node (RFC 4506, section 4).
#[derive(Clone, Copy, Debug)]
pub enum Leaf<'a> {
    /// `int`, `long` or `hyper`
    Signed(i64),
    /// `unsigned int`, `unsigned long` or `unsigned hyper`
    Unsigned(u64),
    /// `bool`
    Truth(bool),
    /// An enumerator: the first name that its enum has for the number, and the number.
    Enumerator(&'a [u8], i32),
    /// The bytes of `opaque`, `float`, `double` or `quadruple`
    Hex(&'a [u8]),
    /// The bytes of `string`
    Text(&'a [u8]),
    /// An array of so many elements
    Array(u32),
    /// An optional that leads to nothing
    Null,
    /// An optional that leads to the value that follows
    Link,
    /// A struct; its fields follow
    Struct,
    /// A union; its discriminant follows, and what stands in the arm
    Union,
    /// `void`
    Void,
}

/// One node of a value. Bodies are lent from the message, names from the schema.
#[derive(Clone, Copy, Debug)]
pub struct Node<'a> {
    /// How many nodes it stands in: 0 at the root.
    pub level: u32,
    /// What it is called.
    pub label: Label<'a>,
    /// What stands there.
    pub leaf: Leaf<'a>,
}
