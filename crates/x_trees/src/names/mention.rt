//! A name that a definition uses.
ghost use Rattle.std.specs.Prelude.{◌≡◌, length, Option};
ghost use Rattle.x_trees.specs.View.{view_shape};
ghost use Rattle.x_trees.specs.Gloss.{use_by};

use crate::trees::{Length, Shape, Tag};

/// What a name is used as.
#[derive(Clone, Copy, Debug, PartialEq, Eq)]
pub enum Use {
    /// A constant: a size, the value of a case, of an enumerator or of a `const`.
    Value,
    /// A type whose values are held: by a plain declaration, by an array of a fixed length, as an argument or
    /// a result.
    ByValue,
    /// A type whose values are linked to: by `*` or by `<>`.
    Link,
}

impl Use {
    /// What the name of a type is used as in a declaration of the shape.
    pub(crate) fn of_type(shape: &Shape) -> Use
        ensures { result ≡ use_by (view_shape shape.now) }
    {
        match shape {
            Shape::Plain | Shape::Array(Length::Fixed(_)) => Use::ByValue,
            Shape::Optional | Shape::Array(Length::Variable(_)) => Use::Link,
        }
    }
}

/// A name that a definition uses.
#[derive(Clone, Copy, Debug)]
pub struct Mention<'d> {
    /// The name.
    pub name: &'d [u8],
    /// The word where it stands, counted from 0 among the words of the definition.
    pub word: usize,
    /// What it is used as.
    pub usage: Use,
    /// The keyword in front of the name of a type.
    pub tag: Option<Tag>,
}
