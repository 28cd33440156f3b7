//! What an editor looks up in an open text: where names stand, the parts of definitions, what is expected at
//! a place, and how many bytes values take.
#![tactic(auto)]

mod lookups;
mod name_places;
mod parts;
mod sizes;
mod surroundings;
mod text_names;
mod text_sink;
mod unparsed;

pub use lookups::{definition_at, is_lifted_name, references_at, unparsed_use_at};
pub use name_places::{Sought, find_names};
pub use parts::{Part, PartKind, parts_of};
pub use sizes::Size;
pub use surroundings::{Expected, expected_at};
pub use text_names::{FoundName, declared_name_at, names};
pub use text_sink::TextSink;
pub use unparsed::unparsed_use;
