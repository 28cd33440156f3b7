//! What is still to be read.
use crate::nodes::CompactLabel;
use x_schema::FormIndex;

/// Where a value stands: what its first node is called, in how many nodes it stands, and how many links are
/// open around it.
#[derive(Clone, Copy, Drop)]
pub(crate) struct Spot {
    pub(crate) label: CompactLabel,
    pub(crate) level: u32,
    pub(crate) links: u32,
}

/// What is still to be read. The level and the links behind a form are those of its fields or elements.
#[derive(Clone, Copy, Drop)]
pub(crate) enum Task {
    /// A value of a form.
    One(FormIndex, Spot),
    /// The fields of a struct from one on.
    Fields(FormIndex, usize, u32, u32),
    /// The elements of a form from one place to before another.
    Elements(FormIndex, u32, u32, u32, u32),
}
