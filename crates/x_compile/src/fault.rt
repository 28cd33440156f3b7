//! Faults of a text.

ghost use Rattle.std.specs.Prelude.{◌≡◌, Some};
ghost use Rattle.x_compile.specs.Faults.{fault_text};

use std::fmt;
use x_rules::RuleCode;

/// What is wrong at a token of an item.
#[derive(Clone, Copy, Debug, PartialEq, Eq)]
pub enum FaultCode {
    /// The item spells no definition.
    Syntax(x_item::FaultCode),
    /// The item's definition breaks a rule.
    Rule(RuleCode),
}

impl FaultCode {
    /// The number and the name that are printed for the code.
    pub fn text(self) -> &'static str
        ensures { result.now ≡ fault_text self }
    {
        match self {
            FaultCode::Syntax(code) => code.text(),
            FaultCode::Rule(rule) => rule.text(),
        }
    }
}

impl fmt::Display for FaultCode {
    ghost output = { λ code. Some (fault_text code) };

    fn fmt<W: fmt::Write>(&self, f: &mut fmt::Formatter<W>) -> fmt::Result {
        f.write_str(self.text())
    }
}

/// A fault of a text.
#[derive(Clone, Copy, Debug, PartialEq, Eq)]
pub struct Fault {
    /// The number of the item that it stands in, from 0.
    pub item: u32,
    /// The index of its token in the item, from 0.
    pub token: u32,
    /// The line of the token's first byte, from 1.
    pub line: u32,
    /// The column of the token's first byte, from 1.
    pub col: u32,
    /// What is wrong.
    pub code: FaultCode,
}

const _: () = prove!(size_of::<Fault>() == 20);

/// A fault of a text, and the place of its token, without the line that this is in.
#[derive(Clone, Copy, Debug, PartialEq, Eq)]
pub struct FaultPlace {
    /// The number of the item that it stands in, from 0.
    pub item: u32,
    /// The index of its token in the item, from 0.
    pub token: u32,
    /// Where the token starts.
    pub start: usize,
    /// What is wrong.
    pub code: FaultCode,
}

/// A fault at a token of an item, counted from 0.
#[derive(Clone, Copy, Debug, PartialEq, Eq)]
pub struct TokenFault {
    pub token: u32,
    pub code: FaultCode,
}
