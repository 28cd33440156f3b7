//! How many faults items have behind an edit.

ghost use Rattle.std.specs.Prelude.{◌≡◌, ◌<◌, IfOk, drop, length, option_copied, option_map, slice_get, take};
ghost use Rattle.x_cutting.specs.ItemList.{LiesAmong, kept, patched};
ghost use Rattle.x_compile.specs.Counting.{entry_faults, faults_found, own_faults};
ghost use Rattle.x_follow.specs.Planned.{ArePlanned, overlaid};

use crate::planned::PlannedResult;
use x_compile::{Content, ItemTable, sum_of};
use x_item::{ItemEntry, ItemPatch, Items};
use x_text::NoMemory;

/// How many faults the items have that the patch will leave, once this is kept with those that are stale.
pub fn faults_behind(
    items: &ItemTable,
    patch: &ItemPatch<Content>,
    found: &[PlannedResult],
) -> Result<usize, NoMemory>
    requires among { LiesAmong items.now.entries.list patch.now }
    requires count { items.now.faults ≡ own_faults (kept items.now.entries.list) }
    requires planned { ArePlanned (kept (patched items.now.entries.list patch.now)) found.now }
    ensures { IfOk result (λ count. count ≡ faults_found (kept (patched items.now.entries.list patch.now))
        (overlaid 0 (kept (patched items.now.entries.list patch.now)) found.now)) }
{
    let more = sum_of(items.faults, fresh_faults(patch)?)?;
    let count = more - removed_faults(&items.entries, patch)?;
    faults_with(count, &items.entries, patch, found)
}

/// How many faults the fresh items have before they are checked.
fn fresh_faults(patch: &ItemPatch<Content>) -> Result<usize, NoMemory>
    ensures { IfOk result (λ count. count ≡ own_faults (kept patch.now.fresh)) }
{
    let mut count = 0;
    for index in 0..patch.len() {
        count = sum_of(count, faults_of(patch.get(index)))?;
    }
    Ok(count)
}

/// How many faults the items have that the patch takes out.
fn removed_faults(items: &Items<Content>, patch: &ItemPatch<Content>) -> Result<usize, NoMemory>
    requires { LiesAmong items.now.list patch.now }
    ensures { IfOk result
        (λ count. count ≡ own_faults (take patch.now.removed (drop patch.now.at (kept items.now.list)))) }
{
    // A read of the count shows that it fits its type.
    let _counted = items.len();
    let mut count = 0;
    for index in patch.at()..patch.at() + patch.removed() {
        count = sum_of(count, faults_of(items.get(index)))?;
    }
    Ok(count)
}

/// How many faults the items have once this is kept with those that are stale, where they have `own` before.
fn faults_with(
    own: usize,
    items: &Items<Content>,
    patch: &ItemPatch<Content>,
    found: &[PlannedResult],
) -> Result<usize, NoMemory>
    requires among { LiesAmong items.now.list patch.now }
    requires count { own ≡ own_faults (kept (patched items.now.list patch.now)) }
    requires planned { ArePlanned (kept (patched items.now.list patch.now)) found.now }
    ensures { IfOk result (λ count. count ≡ faults_found (kept (patched items.now.list patch.now))
        (overlaid 0 (kept (patched items.now.list patch.now)) found.now)) }
{
    let mut count = own;
    for index in (0..found.len()).rev() {
        let planned = &found[index];
        let Some(kept) = kept_behind(items, patch, planned.item) else {
            unreachable!();
        };
        let more = sum_of(count, kept.fault_count(planned.found.checked.faults()))?;
        count = more - kept.own_fault_count();
    }
    Ok(count)
}

/// How many faults an item has, if there is one.
fn faults_of(entry: Option<&ItemEntry<Content>>) -> usize
    ensures { result ≡ entry_faults (option_copied entry.entry) }
{
    match entry {
        Some(entry) => entry.kept.own_fault_count(),
        None => 0,
    }
}

/// What is kept with an item of those that the patch will leave.
pub fn kept_behind<'i>(
    items: &'i Items<Content>,
    patch: &'i ItemPatch<Content>,
    index: usize,
) -> Option<&'i Content>
    requires among { LiesAmong items.now.list patch.now }
    requires within { index < length (patched items.now.list patch.now) }
    ensures { option_copied result ≡ slice_get (kept (patched items.now.list patch.now)) index }
{
    // A read of the count shows that it fits its type.
    let _counted = items.len();
    if index < patch.at() {
        return kept_of(items.get(index));
    }
    let behind = index - patch.at();
    if behind < patch.len() {
        return kept_of(patch.get(behind));
    }
    kept_of(items.get(patch.at() + patch.removed() + (behind - patch.len())))
}

/// What is kept with an item, if there is one.
fn kept_of(entry: Option<&ItemEntry<Content>>) -> Option<&Content>
    ensures { option_copied result ≡ option_map (λ e. e.kept) (option_copied entry.entry) }
{
    Some(&entry?.kept)
}
