//! The rules that a definition may break, and where.
ghost use Rattle.std.specs.Prelude.{◌≡◌, ◌<◌, [], map, length, slice_index_or, Some};
ghost use denote.Enum.Declared.{tag_of};
ghost use Rattle.x_rules.specs.contracts.fault.RuleCode.{the_type};
ghost use Rattle.x_rules.specs.RuleTexts.{rule_text};

use std::fmt;

/// A rule beyond the spelling that a definition breaks.
#[derive(Clone, Copy, Debug, PartialEq, Eq, PartialOrd, Ord)]
pub enum RuleCode {
    /// The name is declared before.
    Duplicate,
    /// Nobody declares the name.
    Unknown,
    /// The name is declared too late.
    LateName,
    /// A type is needed, or a type of another keyword.
    NotType,
    /// A constant is needed.
    NotConst,
    /// The number does not fit.
    Range,
    /// The number is no size.
    BadSize,
    /// No `void` may stand here.
    VoidPlace,
    /// An array of a fixed size has an element at least.
    EmptyArray,
    /// No union can be told by this.
    BadDiscriminant,
    /// The discriminant has no such value.
    BadCase,
    /// An earlier case has the number.
    RepeatedCase,
    /// An earlier field, arm, version or procedure has the name.
    RepeatedField,
    /// An earlier version or procedure has the number.
    RepeatedNumber,
    /// The type, or one that is lifted from it, is higher than [`crate::MOST_HEIGHT`].
    TooHigh,
    /// An argument or a result is written as an inline type.
    InlineArgument,
    /// The item that declares the name has a fault.
    UsesFaulty,
}

/// The number and the name of each rule, as they are printed, in the order of [`RuleCode`].
pub const RULE_TEXTS: [&str; 17] = [
    "20 Duplicate",
    "21 Unknown",
    "22 LateName",
    "23 NotType",
    "24 NotConst",
    "25 Range",
    "26 BadSize",
    "27 VoidPlace",
    "28 EmptyArray",
    "29 BadDiscriminant",
    "30 BadCase",
    "31 RepeatedCase",
    "32 RepeatedField",
    "33 RepeatedNumber",
    "34 TooHigh",
    "36 InlineArgument",
    "37 UsesFaulty",
];

/// What is printed for the rule, by a table in the order of the rules.
fn text_in(table: &[&'static str], rule: RuleCode) -> &'static str
    requires { tag_of the_type rule < length table.now }
    ensures { result.now ≡ slice_index_or (map (λ text. text.now) table.now) (tag_of the_type rule) [] }
{
    table[rule as usize]
}

impl RuleCode {
    /// The number and the name that are printed for the rule.
    #[tactic(auto, using(crate::proofs::RuleTextLemmas::within, crate::proofs::RuleTextLemmas::text_is))]
    pub fn text(self) -> &'static str
        ensures { result.now ≡ rule_text self }
    {
        text_in(&RULE_TEXTS, self)
    }
}

impl fmt::Display for RuleCode {
    ghost output = { λ rule. Some (rule_text rule) };

    fn fmt<W: fmt::Write>(&self, f: &mut fmt::Formatter<W>) -> fmt::Result {
        f.write_str(self.text())
    }
}

/// A fault at a word of an item.
#[derive(Clone, Copy, Debug, PartialEq, Eq, PartialOrd, Ord)]
pub struct WordFault {
    /// The word, counted from 0 among the words of the item.
    pub word: usize,
    /// The rule that it breaks.
    pub code: RuleCode,
}
