//! The trees of definitions. Each name and number is kept as it is spelled.

mod declaration;
mod definition;
mod lists;
mod program;
mod spelling;
mod value;

pub use declaration::{
    Arm, Basic, Body, DataType, Declaration, Enumerator, Length, MOST_INLINE, Shape, Tag,
    UnionBody, inline, struct_body, union_body,
};
pub use definition::Definition;
pub use lists::fitted;
pub use program::{Argument, Procedure, Version};
pub use spelling::Spelling;
pub use value::Value;
