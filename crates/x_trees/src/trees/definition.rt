//! What an item defines.
use super::{Body, Declaration, Spelling, Value, Version};

/// A definition of the language.
pub enum Definition {
    /// `const LIMIT = 12;`
    Const {
        name: Spelling,
        value: Value,
    },
    /// `typedef int row<12>;`
    Typedef(Box<Declaration>),
    /// `enum colour { RED, GREEN };`, and structs and unions likewise
    NewType {
        name: Spelling,
        body: Body,
    },
    /// `program P { version V { void NULL(void) = 0; } = 1; } = 2;`
    Program {
        name: Spelling,
        /// The versions, in order.
        versions: Vec<Version>,
        number: Spelling,
    },
}

// By hand, as all trees.
impl Drop for Definition {
    fn drop(self) {
        match self {
            Definition::Const { name: _, value: _ } => {}
            Definition::Typedef(_) => {}
            Definition::NewType { name: _, body: _ } => {}
            Definition::Program {
                name: _,
                versions: _,
                number: _,
            } => {}
        }
    }
}
