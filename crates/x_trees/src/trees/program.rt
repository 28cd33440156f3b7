//! What stands in programs.

use super::{DataType, Spelling};

/// What is passed to a procedure, or comes back from it.
pub enum Argument {
    /// `string`
    String,
    /// Any type.
    Of(DataType),
}

/// A procedure of a version.
pub struct Procedure {
    /// `None` where it is `void`.
    pub result: Option<Argument>,
    /// Its name.
    pub name: Spelling,
    /// The first argument: `None` where it is `void`.
    pub first: Option<Argument>,
    /// The arguments behind the first, in order.
    pub others: Vec<Argument>,
    /// Its number in the version.
    pub number: Spelling,
}

/// A version of a program.
pub struct Version {
    /// Its name.
    pub name: Spelling,
    /// The procedures, in order.
    pub procedures: Vec<Procedure>,
    /// Its number in the program.
    pub number: Spelling,
}

// How these are let go, by hand, as all trees.

impl Drop for Argument {
    fn drop(self) {
        match self {
            Argument::String => {}
            Argument::Of(_) => {}
        }
    }
}

impl Drop for Procedure {
    fn drop(self) {
        let Procedure {
            result: _,
            name: _,
            first: _,
            others: _,
            number: _,
        } = self;
    }
}

impl Drop for Version {
    fn drop(self) {
        let Version {
            name: _,
            procedures: _,
            number: _,
        } = self;
    }
}
