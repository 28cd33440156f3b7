//! The items of a `.x` file: what an item is ([`parse_item`]). The parser (`x_parser`), the trees of
//! definitions, their spelling and the names in them (`x_trees`), and how tokens are cut into items and what
//! an edit does to these (`x_cutting`), are offered here too.
#![tactic(auto)]

mod item;
mod laws;

pub use item::{Parsed, parse_item};
pub use laws::{one_parse, spell_law};
pub use x_cutting::{ItemEntry, ItemPatch, Items, cut, next_item, one_cut, one_recut, recut};
pub use x_parser::{FaultCode, is_significant};
pub use x_trees::{
    Argument, Arm, Basic, Body, DataType, Declaration, DeclaredName, Definition, Enumerator,
    Glossary, Length, MOST_INLINE, Mention, NameKind, Procedure, Shape, Spelling, Tag, UnionBody,
    Use, Value, Version, declares, gloss_law, lifted_name, mentions,
};
