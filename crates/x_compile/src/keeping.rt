//! What is kept of the items once they are checked.

ghost use Rattle.x_cutting.specs.ItemList.{kept};
ghost use Rattle.x_compile.specs.Checking.{AreKnown};
ghost use Rattle.x_compile.specs.KeptView.{AreWith};

use crate::content::{CheckResult, Content};
use x_item::ItemEntry;

/// Keeps with each item of a list, before it is a session's, what was found of it.
pub fn keep_results(entries: &mut Vec<ItemEntry<Content>>, results: Vec<Option<Box<CheckResult>>>)
    requires { AreKnown (kept entries.old.items) results.items }
    ensures { AreWith entries.old.items results.items entries.new.items }
{
    let mut results = results;
    while let Some(found) = results.pop() {
        entries[results.len()].kept.keep(found);
    }
}
