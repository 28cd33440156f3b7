//! Faults that are found.
ghost use Rattle.std.specs.Prelude.{◌≡◌, ◌++◌, OnOk};
ghost use Rattle.x_rules.specs.Found.{fault_at};

use crate::fault::{RuleCode, WordFault};
use x_text::NoMemory;

/// Adds the fault at a word, if there is one.
pub fn add_fault(
    faults: &mut Vec<WordFault>,
    word: usize,
    code: Option<RuleCode>,
) -> Result<(), NoMemory>
    ensures { OnOk result (faults.new.items ≡ faults.old.items ++ fault_at word code) }
{
    match code {
        Some(code) => {
            faults.push(WordFault { word, code })?;
            Ok(())
        }
        None => Ok(()),
    }
}
