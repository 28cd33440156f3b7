//! The check of an item.

ghost use Rattle.std.specs.Prelude.{◌≡◌, ◌++◌, map, IfOk, OnOk};
ghost use Rattle.x_streams.specs.Counters.{raised};
ghost use Rattle.std.specs.Cmp.{IsEquivalence, IsTotalOrder};
ghost use Rattle.std.specs.Ordering.{eq_by_cmp};
ghost use Rattle.std.specs.List.{IsAmong};
ghost use Rattle.x_trees.specs.View.{view_definition};
ghost use Rattle.x_trees.specs.Spell.{IsShort};
ghost use Rattle.x_rules.specs.Results.{IsOutcome, meanings_by};
ghost use Rattle.x_rules.specs.Rules.{Ascends, AreFaults};
ghost use Rattle.x_trees.specs.Seen.{names_of};
ghost use Rattle.x_outline.specs.Bodies.{enumerators};
ghost use Rattle.x_rules.specs.Constants.{knowns};
ghost use Rattle.x_rules.specs.Found.{body_faults, found_faults};
ghost use Rattle.x_rules.specs.KeptViews.{kept_meaning};
ghost use Rattle.x_outline.specs.Outlines.{IsOutline, outlined};
ghost use Rattle.x_rules.specs.Outlined.{AreTables, GivesOutcome};
ghost use Rattle.x_rules.specs.Tables.{seen_by};
ghost use Rattle.x_rules.specs.RustViews.{view_view};

use crate::checked::{Checked, KeptMeanings};
use crate::fault::WordFault;
use crate::rules::cases::{add_repeated_cases, bad_cases};
use crate::rules::constants::{Constants, enumerators};
use crate::rules::duplicates::add_duplicates;
use crate::rules::heights::add_too_high;
use crate::rules::keys::key_of;
use crate::rules::meanings::meanings;
use crate::rules::mentioned::add_mentioned;
use crate::rules::repeats::{add_repeated_fields, add_repeated_members};
use crate::rules::sights::{Sights, list_names};
use crate::rules::words::{add_past_last, add_words};
use crate::views::View;
use smallvec::SmallVec;
use std::alloc::Global;
use x_hash::HashKey;
use x_outline::{Outline, members};
use x_text::{Meter, NoMemory};
use x_trees::Definition;

/// The laws of an order, as the prover has them of any type.
fn order_laws<T: Ord>()
    ensures total { IsTotalOrder T.cmp }
    ensures ties { (x y : T) → T.eq x y ≡ eq_by_cmp T.cmp x y }
    ensures equal { IsEquivalence T.eq }
{}

/// Puts faults in order, and leaves each once.
fn order(faults: &mut Vec<WordFault>)
    ensures ascend { Ascends faults.new.items }
    ensures from { (f : WordFault) → IsAmong faults.new.items f → IsAmong faults.old.items f }
    ensures kept { (f : WordFault) → IsAmong faults.old.items f → IsAmong faults.new.items f }
{
    order_laws::<WordFault>();
    faults.sort_unstable();
    faults.dedup();
}

/// Adds what the rules for bodies find, but that for cases, and those for the members of programs and for
/// heights.
fn add_body_faults(
    alloc: Global,
    faults: &mut Vec<WordFault>,
    outline: &Outline,
    sights: &Sights,
    constants: &Constants,
) -> Result<(), NoMemory>
    ensures { OnOk result (IsOutline outline.now → AreTables outline.now sights.now constants.now
        → faults.new.items ≡ faults.old.items ++ body_faults (outlined outline.now) (seen_by sights.now)
        (knowns (seen_by sights.now) (enumerators (outlined outline.now)))) }
{
    let groups = members(alloc, outline.definition)?;
    add_repeated_cases(alloc, faults, &outline.bodies, sights, constants)?;
    add_repeated_fields(alloc, sights.hash_key, faults, &outline.bodies)?;
    add_repeated_members(alloc, sights.hash_key, faults, &groups)?;
    add_too_high(
        faults,
        outline.definition,
        &outline.declared,
        &outline.bodies,
        sights,
    )?;
    Ok(())
}

/// What all rules but that for cases find, in no order.
fn found_faults(
    alloc: Global,
    outline: &Outline,
    sights: &Sights,
    constants: &Constants,
) -> Result<Vec<WordFault>, NoMemory>
    ensures { IfOk result (λ faults. IsOutline outline.now → AreTables outline.now sights.now constants.now
        → faults.items ≡ found_faults (outlined outline.now) (seen_by sights.now)) }
{
    let mut faults = Vec::new(alloc);
    add_duplicates(&mut faults, &outline.declared, sights)?;
    add_mentioned(&mut faults, &outline.mentioned, sights, constants)?;
    add_words(&mut faults, &outline.notes, sights, constants)?;
    add_past_last(&mut faults, constants)?;
    add_body_faults(alloc, &mut faults, outline, sights, constants)?;
    Ok(faults)
}

/// All faults of a definition, in order.
fn faults_of(
    alloc: Global,
    outline: &Outline,
    sights: &Sights,
    constants: &Constants,
) -> Result<Vec<WordFault>, NoMemory>
    ensures { IfOk result (λ faults. IsOutline outline.now → AreTables outline.now sights.now constants.now
        → AreFaults (outlined outline.now) (seen_by sights.now) faults.items) }
{
    let mut faults = found_faults(alloc, outline, sights, constants)?;
    order(&mut faults);
    let bad = bad_cases(alloc, &faults, &outline.bodies, sights, constants)?;
    faults.extend_from_slice(&bad)?;
    order(&mut faults);
    Ok(faults)
}

/// What the names mean that a definition declares, unless it has one of the faults.
fn meanings_by(
    alloc: Global,
    outline: &Outline,
    sights: &Sights,
    constants: &Constants,
    faults: &[WordFault],
) -> Result<KeptMeanings, NoMemory>
    ensures { IfOk result (λ list. IsOutline outline.now → AreTables outline.now sights.now constants.now
        → AreFaults (outlined outline.now) (seen_by sights.now) faults.now
        → map kept_meaning list.items ≡ meanings_by (outlined outline.now) (seen_by sights.now) faults.now) }
{
    match faults {
        [] => meanings(
            alloc,
            outline.definition,
            &outline.declared,
            &outline.bodies,
            sights,
            constants,
        ),
        [_, ..] => Ok(SmallVec::new(alloc)),
    }
}

/// What is found of a definition.
fn checked(
    alloc: Global,
    outline: &Outline,
    sights: &Sights,
    constants: &Constants,
) -> Result<Checked, NoMemory>
    ensures { IfOk result (λ checked. IsOutline outline.now → AreTables outline.now sights.now constants.now
        → GivesOutcome (outlined outline.now) (seen_by sights.now) checked) }
{
    let faults = faults_of(alloc, outline, sights, constants)?;
    let meanings = meanings_by(alloc, outline, sights, constants, &faults)?;
    Ok(Checked::new(faults, meanings))
}

/// What is found of a definition whose names are seen so.
fn outcome_seen(alloc: Global, outline: &Outline, sights: &Sights) -> Result<Checked, NoMemory>
    ensures { IfOk result (λ checked. IsOutline outline.now
        → map (λ x. x.now) sights.now.names ≡ names_of (outlined outline.now)
        → GivesOutcome (outlined outline.now) (seen_by sights.now) checked) }
{
    let list = enumerators(alloc, &outline.bodies)?;
    let constants = Constants::of(alloc, &list, sights)?;
    checked(alloc, outline, sights, &constants)
}

/// What is found of a definition under these views, over tables that hash by the key.
fn outcome(
    alloc: Global,
    hash_key: HashKey,
    outline: &Outline,
    views: &[View],
) -> Result<Checked, NoMemory>
    ensures { IfOk result (λ checked. IsOutline outline.now
        → IsOutcome (outlined outline.now) (map view_view views.now) checked) }
{
    let mut names = SmallVec::new(alloc);
    list_names(&mut names, &outline.declared, &outline.mentioned)?;
    let sights = Sights::of(alloc, hash_key, &names, views)?;
    outcome_seen(alloc, outline, &sights)
}

/// Checks the definition of an item by the rules beyond its spelling (RFC 4506, section 6.4). There is one
/// view for each name that it declares, and then one for each that it uses, in the orders of
/// [`x_trees::declares`] and [`x_trees::mentions`]. Counts one checked item. It takes time in proportion to
/// the definition, but for sorting faults and the numbers of an enum.
///
/// # Errors
///
/// [`NoMemory`] where something that is found could not be kept.
pub fn check_item(
    alloc: Global,
    definition: &Definition,
    views: &[View],
    meter: &mut Meter,
) -> Result<Checked, NoMemory>
    ensures checked { IfOk result (λ checked. IsShort (view_definition definition.now)
        → IsOutcome (view_definition definition.now) (map view_view views.now) checked) }
    ensures counted { meter.new ≡ record meter.old { checked = raised meter.old.checked 1 } }
{
    meter.tick_checked();
    let outline = Outline::of(alloc, definition)?;
    outcome(alloc, key_of(alloc, &outline)?, &outline, views)
}

/// As [`check_item`], of a definition whose outline is there, by a key that whoever chose the names and
/// numbers of the definition did not know.
///
/// # Errors
///
/// As [`check_item`].
pub fn check_outline(
    alloc: Global,
    hash_key: HashKey,
    outline: &Outline,
    views: &[View],
    meter: &mut Meter,
) -> Result<Checked, NoMemory>
    ensures checked { IfOk result (λ checked. IsOutline outline.now
        → IsOutcome (outlined outline.now) (map view_view views.now) checked) }
    ensures counted { meter.new ≡ record meter.old { checked = raised meter.old.checked 1 } }
{
    meter.tick_checked();
    outcome(alloc, hash_key, outline, views)
}
