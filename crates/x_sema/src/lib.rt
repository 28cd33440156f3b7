//! What the definitions of a text mean: who declares each name first (`x_names`), what is wrong with a
//! definition beyond its spelling and what its names mean (`x_rules`), the types that values are read by
//! (`x_schema`), and the numbers of spellings (`x_numbers`). It holds nothing of its own.
#![tactic(auto)]

pub use x_names::{Declarer, Names, is_beforehand, one_first_declarer};
pub use x_numbers::number_value;
pub use x_rules::{
    Checked, Class, MOST_HEIGHT, Meaning, Numbers, Outline, RULE_TEXTS, RuleCode, View, WordFault,
    check_item, check_outline, has_results, one_list_of_faults, one_list_of_results, one_outcome,
};
pub use x_schema::{
    Arm, Arms, Enumerators, Field, Form, FormIndex, LinkIndex, NameIndex, Procedure,
    ProcedureNumbers, Root, Schema, TypeId,
};
