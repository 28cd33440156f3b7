//! What stands before a text: the definitions of known files, and those that the text lacks, made of the
//! names that it uses and nobody declares. Such a name is taken as one of C.
#![tactic(auto)]

mod before;
mod c_types;
mod definition;
mod followed;
mod foreign;
mod lacking;
mod laws;
mod leading;
mod prelude;

pub use before::{lacking_text, open_by};
pub use definition::FromC;
pub use followed::FollowedText;
pub use foreign::foreign_names;
pub use laws::undeclared_law;
