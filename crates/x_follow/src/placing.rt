//! What an edit changes of the items, put in place from the first to the last.

ghost use Rattle.std.specs.Prelude.{◌≡◌, ◌+◌, ◌*◌, ◌<◌, ◌≤◌, ℕ, List, ◌∷◌, IfSome, None, Some, length};
ghost use Rattle.x_text.specs.declared.text.source.TheConstants.{MAX_TEXT};
ghost use Rattle.x_lists.specs.Seqs.{distance};
ghost use Rattle.x_cutting.specs.ItemList.{counts, kept, patched};
ghost use Rattle.x_recheck.specs.Staleness.{Ascending};
ghost use Rattle.x_compile.specs.Checking.{IsKnownAt};
ghost use Rattle.x_follow.specs.Following.{CanPut, behind, kept_behind, whole};
ghost use Rattle.x_compile.specs.KeptView.{AreWith, IsWithAt};
ghost use Rattle.x_follow.specs.Moves.{changed_items, moves, seat_behind, splice_of};
ghost use Rattle.x_follow.specs.Planned.{ArePlanned, numbers_of};
ghost use Rattle.x_follow.specs.inside.Carrying.{HasMoved, IsCounted, left_changes};

use crate::planned::PlannedResult;
use x_compile::{CheckResult, Content};
use x_item::{ItemPatch, Items};

/// Carries the patch out, and keeps with each stale item of those that it leaves what was found of it, from
/// the first that changes to the last. Answers how many entries moved. It takes no memory.
pub fn put_changes(
    items: &mut Items<Content>,
    patch: ItemPatch<Content>,
    found: Vec<PlannedResult>,
) -> u64
    requires patch { CanPut items.old patch }
    requires planned { ArePlanned (kept_behind items.old.list patch) found.items }
    requires ascending { Ascending 0 (numbers_of found.items) }
    ensures items { AreWith (patched items.old.list patch) (behind items.old.list patch found.items)
        items.new.list }
    ensures moved { result ≡ moves items.old.seat (changed_items (splice_of patch) (numbers_of found.items)) }
    ensures few { result ≤ 2 * (MAX_TEXT + 1) }
    ensures seat { items.new.seat ≡ seat_behind items.old.seat
        (changed_items (splice_of patch) (numbers_of found.items)) }
    ensures counted { items.new.moved ≡ items.old.moved + result }
{
    // A read of the count shows that the sum fits its type.
    let _counted = items.len();
    let mut pending = Some(patch);
    let mut moved: u64 = 0;
    for planned in found {
        moved = moved.saturating_add(put_next(items, &mut pending, planned));
    }
    moved.saturating_add(put_pending(items, &mut pending))
}

/// Keeps with an item what was found of it, once what the patch puts in before it is in place. The item is
/// one of those that the patch leaves. Answers how many entries moved.
fn put_next(
    items: &mut Items<Content>,
    pending: &mut Option<ItemPatch<Content>>,
    planned: PlannedResult,
) -> u64
    requires pending { IfSome pending.old (CanPut items.old) }
    requires within { planned.item < length (whole items.old.list pending.old) }
    requires known { IsKnownAt (kept (whole items.old.list pending.old)) planned.item (Some planned.found) }
    ensures pending { IfSome pending.new (CanPut items.new) }
    ensures put { IsWithAt (whole items.old.list pending.old) planned.item (Some planned.found)
        (whole items.new.list pending.new) }
    ensures moved { (ks : List ℕ) → Ascending (planned.item + 1) ks
        → HasMoved items.old.seat (left_changes pending.old (planned.item ∷ ks)) result items.new.seat
        (left_changes pending.new ks) }
    ensures counted { IsCounted items.old.moved items.new.moved result }
{
    let PlannedResult { item, found } = planned;
    if let Some(patch) = pending {
        if item < patch.at() {
            return keep_at(items, item, Some(found));
        }
        let index = item - patch.at();
        if index < patch.len() {
            keep_fresh(patch, index, Some(found));
            return 0;
        }
    }
    let moved = put_pending(items, pending);
    moved.saturating_add(keep_at(items, item, Some(found)))
}

/// Carries the patch out if it is still to be, unless nothing goes by it and nothing comes. Answers how many
/// entries moved.
fn put_pending(items: &mut Items<Content>, pending: &mut Option<ItemPatch<Content>>) -> u64
    requires { IfSome pending.old (CanPut items.old) }
    ensures list { items.new.list ≡ whole items.old.list pending.old }
    ensures pending { pending.new ≡ None }
    ensures moved { (ks : List ℕ) → IfSome pending.old
        (λ patch. Ascending (patch.at + length patch.fresh) ks)
        → HasMoved items.old.seat (left_changes pending.old ks) result items.new.seat
        (left_changes pending.new ks) }
    ensures counted { items.new.moved ≡ items.old.moved + result }
{
    let Some(patch) = pending.take() else {
        return 0;
    };
    if patch.removed() == 0 && patch.is_empty() {
        return 0;
    }
    items.put(patch)
}

/// Keeps with an item what was found of it, and answers how many entries moved.
fn keep_at(items: &mut Items<Content>, index: usize, found: Option<Box<CheckResult>>) -> u64
    requires within { index < length items.old.list }
    requires known { IsKnownAt (kept items.old.list) index found }
    ensures put { IsWithAt items.old.list index found items.new.list }
    ensures counts { counts items.new.list ≡ counts items.old.list }
    ensures room { items.old.spare ≤ items.new.spare }
    ensures moved { result ≡ distance items.old.seat index (index + 1) }
    ensures counted { items.new.moved ≡ items.old.moved + result }
    ensures seat { items.new.seat ≡ index + 1 }
{
    let (mut kept, out) = items.exchange(index, Content::default());
    kept.keep(found);
    let (_, back) = items.exchange(index, kept);
    out.saturating_add(back)
}

/// Keeps with a fresh item what was found of it, before the patch is carried out.
fn keep_fresh(patch: &mut ItemPatch<Content>, index: usize, found: Option<Box<CheckResult>>)
    requires within { index < length patch.old.fresh }
    requires known { IsKnownAt (kept patch.old.fresh) index found }
    ensures put { IsWithAt patch.old.fresh index found patch.new.fresh }
    ensures counts { counts patch.new.fresh ≡ counts patch.old.fresh }
    ensures others { patch.new ≡ record patch.old { fresh = patch.new.fresh } }
{
    let mut kept = patch.exchange(index, Content::default());
    kept.keep(found);
    patch.exchange(index, kept);
}
