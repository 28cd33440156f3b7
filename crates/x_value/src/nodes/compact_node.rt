//! The nodes of a value as one list.
ghost use Rattle.std.specs.Prelude.{◌≡◌, ◌<◌, List, length, map, option_map, slice_get};
ghost use Rattle.std.specs.Iterator.{YieldsFirstBy, item_count};
ghost use Rattle.x_value.specs.Entries.{label_of, leaf_of, node_of, nodes_of, body_at, IsCalled, IsKeptLeaf};
ghost use Rattle.x_value.specs.Entries.{AreNamed};
ghost use Rattle.x_value.specs.NodeList.{shown_label, shown_leaf, shown_node};

use super::{Label, Leaf, Node};
use std::marker::Model;
use x_schema::{NameIndex, Schema};

/// What a node is called, a name by its place in the schema.
#[derive(Clone, Copy, Debug)]
pub(crate) enum CompactLabel {
    /// A declared name.
    Name(NameIndex),
    /// The place of an element.
    Index(u32),
    /// What a link leads to.
    Star,
    /// The arguments of a procedure.
    Arguments,
    /// The results of a procedure.
    Results,
}

/// What stands at a node. A body is told by its length and its place in the message.
#[derive(Clone, Copy, Debug)]
pub(crate) enum CompactLeaf {
    Signed(i64),
    Unsigned(u64),
    Truth(bool),
    Enumerator(NameIndex, i32),
    Hex(u32, usize),
    Text(u32, usize),
    Array(u32),
    Null,
    Link,
    Struct,
    Union,
    Void,
}

/// A node as it is kept.
#[derive(Clone, Copy, Debug)]
pub(crate) struct CompactNode {
    pub(crate) level: u32,
    pub(crate) label: CompactLabel,
    pub(crate) leaf: CompactLeaf,
}

const _: () = prove!(size_of::<CompactNode>() == 32);

/// The nodes of a value in their order, seen as that list. They lend names from the schema, and bodies from
/// the message.
#[derive(Drop)]
pub struct Dump<'a> {
    pub(crate) schema: &'a Schema,
    pub(crate) message: &'a [u8],
    pub(crate) entries: Vec<CompactNode>,
}

impl<'a> Model for Dump<'a> {
    ghost use Rattle.std.specs.Prelude.{List, length};
    ghost use Rattle.x_value.specs.Shown.{Node};
    ghost use Rattle.x_value.specs.Entries.{nodes_of, AreNamed};

    ghost Value = { List Node };

    ghost view = { λ d. nodes_of d.schema.now d.message.now d.entries.items };

    ghost invariant = { λ d. AreNamed (length d.schema.now.names) d.entries.items };
}

/// So many bytes of the message from a place on.
fn body<'a>(message: &'a [u8], len: u32, at: usize) -> &'a [u8]
    ensures { result.now ≡ body_at message.now at len }
{
    let rest = message.get(at..).unwrap_or(&[]);
    rest.get(..len as usize).unwrap_or(rest)
}

#[inline(always)]
fn label(schema: &Schema, label: CompactLabel) -> Label<'_>
    requires { IsCalled (length schema.now.names) label }
    ensures { shown_label result ≡ label_of schema.now label }
{
    match label {
        CompactLabel::Name(name) => Label::Name(schema.name(name)),
        CompactLabel::Index(at) => Label::Index(at),
        CompactLabel::Star => Label::Star,
        CompactLabel::Arguments => Label::Arguments,
        CompactLabel::Results => Label::Results,
    }
}

#[inline(always)]
fn leaf<'a>(schema: &'a Schema, message: &'a [u8], leaf: CompactLeaf) -> Leaf<'a>
    requires { IsKeptLeaf (length schema.now.names) leaf }
    ensures { shown_leaf result ≡ leaf_of schema.now message.now leaf }
{
    match leaf {
        CompactLeaf::Signed(number) => Leaf::Signed(number),
        CompactLeaf::Unsigned(number) => Leaf::Unsigned(number),
        CompactLeaf::Truth(truth) => Leaf::Truth(truth),
        CompactLeaf::Enumerator(name, number) => Leaf::Enumerator(schema.name(name), number),
        CompactLeaf::Hex(len, at) => Leaf::Hex(body(message, len, at)),
        CompactLeaf::Text(len, at) => Leaf::Text(body(message, len, at)),
        CompactLeaf::Array(count) => Leaf::Array(count),
        CompactLeaf::Null => Leaf::Null,
        CompactLeaf::Link => Leaf::Link,
        CompactLeaf::Struct => Leaf::Struct,
        CompactLeaf::Union => Leaf::Union,
        CompactLeaf::Void => Leaf::Void,
    }
}

#[inline(always)]
fn node<'a>(schema: &'a Schema, message: &'a [u8], entry: CompactNode) -> Node<'a>
    requires label { IsCalled (length schema.now.names) entry.label }
    requires leaf { IsKeptLeaf (length schema.now.names) entry.leaf }
    ensures { shown_node result ≡ node_of schema.now message.now entry }
{
    Node {
        level: entry.level,
        label: label(schema, entry.label),
        leaf: leaf(schema, message, entry.leaf),
    }
}

impl<'a> Dump<'a> {
    /// The nodes that are kept by these entries.
    pub(crate) fn of(schema: &'a Schema, message: &'a [u8], entries: Vec<CompactNode>) -> Dump<'a>
        requires { AreNamed (length schema.now.names) entries.items }
        ensures { result ≡ nodes_of schema.now message.now entries.items }
    {
        Dump {
            schema,
            message,
            entries,
        }
    }

    /// How many nodes there are.
    pub fn len(&self) -> usize
        ensures { result ≡ length self.now }
    {
        self.entries.len()
    }

    #[tactic(auto, using(crate::proofs::EntryLemmas::called_at, crate::proofs::EntryLemmas::kept_at, crate::proofs::EntryLemmas::shown_at, crate::proofs::EntryLemmas::none_at))]
    /// The node at a place, if there are so many.
    pub fn get(&self, index: usize) -> Option<Node<'a>>
        ensures { option_map shown_node result ≡ slice_get self.now index }
    {
        if index >= self.entries.len() {
            return None;
        }
        Some(node(self.schema, self.message, self.entries[index]))
    }
    /// The nodes, in order.
    pub fn iter(&self) -> Nodes<'_, 'a>
        ensures { result ≡ self.now }
    {
        Nodes {
            schema: self.schema,
            message: self.message,
            entries: &self.entries,
        }
    }
}

/// Goes over the nodes of a value in order: the result of [`Dump::iter`], seen as the list of those that are
/// left.
#[derive(Drop)]
pub struct Nodes<'d, 'a> {
    schema: &'a Schema,
    message: &'a [u8],
    entries: &'d [CompactNode],
}

impl<'d, 'a> Model for Nodes<'d, 'a> {
    ghost use Rattle.std.specs.Prelude.{List, length};
    ghost use Rattle.x_value.specs.Shown.{Node};
    ghost use Rattle.x_value.specs.Entries.{nodes_of, AreNamed};

    ghost Value = { List Node };

    ghost view = { λ nodes. nodes_of nodes.schema.now nodes.message.now nodes.entries.now };

    ghost invariant = { λ nodes. AreNamed (length nodes.schema.now.names) nodes.entries.now };
}

impl<'d, 'a> Iterator for Nodes<'d, 'a> {
    type Item = Node<'a>;

    ghost next_gives = { YieldsFirstBy shown_node (λ left. left) };

    ghost remaining = { item_count (λ left. left) };

    fn next(&mut self) -> Option<Node<'a>> {
        let (entry, others) = self.entries.split_first()?;
        self.entries = others;
        Some(node(self.schema, self.message, *entry))
    }
}
