//! Names that are declared twice.
ghost use Rattle.std.specs.Prelude.{◌≡◌, ◌++◌, map, OnOk};
ghost use Rattle.x_trees.specs.Collected.{view_name};
ghost use Rattle.x_rules.specs.Found.{is_earlier_name, is_taken_at, duplicate_code};
ghost use Rattle.x_rules.specs.Found.{duplicates_from};
ghost use Rattle.x_rules.specs.RustViews.{view_view};
ghost use Rattle.x_rules.specs.Tables.{place_seen, seen_by};

use super::first_places::is_behind;
use super::found::add_fault;
use super::sights::Sights;
use crate::fault::{RuleCode, WordFault};
use crate::views::View;
use x_text::NoMemory;
use x_trees::DeclaredName;

/// Whether a name is declared at an earlier place or beforehand.
fn is_earlier_name(view: View) -> bool
    ensures { result ≡ is_earlier_name (view_view view.entry) }
{
    matches!(view, View::Earlier { .. })
}

/// The fault of a name in this place of those that the item declares.
fn duplicate_fault(sights: &Sights, place: usize, name: &[u8]) -> Option<RuleCode>
    ensures { result ≡ duplicate_code (is_taken_at (seen_by sights.now)
        (place_seen sights.now) place name.now) }
{
    let first = sights.place(name);
    if is_earlier_name(sights.view_at(first)) || is_behind(first, place) {
        Some(RuleCode::Duplicate)
    } else {
        None
    }
}

/// Adds the faults of names that were declared before.
pub fn add_duplicates(
    faults: &mut Vec<WordFault>,
    declared: &[DeclaredName],
    sights: &Sights,
) -> Result<(), NoMemory>
    ensures { OnOk result (faults.new.items ≡ faults.old.items
        ++ duplicates_from (seen_by sights.now) (place_seen sights.now) 0 (map view_name declared.now)) }
{
    for (place, name) in declared.iter().enumerate() {
        let code = duplicate_fault(sights, place, &name.name);
        add_fault(faults, name.word, code)?;
    }
    Ok(())
}
