//! The items that an edit makes stale.

ghost use Rattle.std.specs.Prelude.{◌≡◌, All, IfOk, None, length, map};
ghost use Rattle.x_streams.specs.Counters.{raised};
ghost use Rattle.x_cutting.specs.ItemList.{AreOfText, LiesAmong, counts, kept, patched};
ghost use Rattle.x_trees.specs.View.{tree_at};
ghost use Rattle.x_names.specs.Declarers.{AreShort};
ghost use Rattle.x_compile.specs.Known.{known_names};
ghost use Rattle.x_compile.specs.Checking.{IsMade};
ghost use Rattle.x_follow.specs.Following.{AreStaleChecked, HasRoomForNames, IsCheckedTable, IsNameChange};
ghost use Rattle.x_compile.specs.KeptView.{entry_definitions, kept_found};
ghost use Rattle.x_follow.specs.Rendered.{AreRenderings, HasDefinitionAt, HaveDefinitions, IsRendering};

use crate::checked_table::CheckedTable;
use crate::counting::kept_behind;
use crate::naming::NameChange;
use crate::planned::PlannedResult;
use std::alloc::Global;
use x_compile::{CheckResult, Content, ItemTable, KnownDefinitions, new_pieces};
use x_gen::Renderer;
use x_item::{Definition, ItemPatch, Items};
use x_recheck::{Rechecked, recheck};
use x_text::{Meter, NoMemory};

/// Checks the items that the patch makes stale, where `put` are the definitions of its fresh ones, and makes
/// what is generated of those that have no fault and no pieces yet. `known` is known before the text. Counts
/// each of them as checked.
pub fn check_stale_items(
    alloc: Global,
    known: &KnownDefinitions,
    items: &ItemTable,
    patch: &ItemPatch<Content>,
    put: &[Option<&Definition>],
    names: &NameChange,
    meter: &mut Meter,
) -> Result<Vec<PlannedResult>, NoMemory>
    requires put { map tree_at put.now ≡ entry_definitions patch.now.fresh }
    requires among { LiesAmong items.now.entries.list patch.now }
    requires of_text_behind { AreOfText (counts (patched items.now.entries.list patch.now)) }
    requires checked { IsCheckedTable (known_names known.now) items.now }
    requires short { AreShort (entry_definitions patch.now.fresh) }
    requires unchecked { All (λ e. kept_found e.kept ≡ None) patch.now.fresh }
    requires names { IsNameChange items.now.entries.list patch.now names.now }
    requires room { HasRoomForNames items.now.uses names.now }
    ensures stale { IfOk result
        (λ found. AreStaleChecked (known_names known.now) items.now.entries.list patch.now found.items) }
    ensures counted { IfOk result (λ found. meter.new
        ≡ record meter.old { checked = raised meter.old.checked (length found.items) }) }
{
    let Some(uses) = &items.uses else {
        unreachable!();
    };
    // A read of the count shows that it fits its type.
    let _counted = items.entries.len();
    let table = CheckedTable { known, items };
    let stale = recheck(alloc, &table, put, names.place, uses, &names.fresh, meter)?;
    render_all(alloc, &items.entries, patch, stale)
}

/// What is to be kept of the stale items.
fn render_all(
    alloc: Global,
    items: &Items<Content>,
    patch: &ItemPatch<Content>,
    stale: Vec<Rechecked>,
) -> Result<Vec<PlannedResult>, NoMemory>
    requires among { LiesAmong items.now.list patch.now }
    requires made { All IsMade (kept (patched items.now.list patch.now)) }
    requires defined { HaveDefinitions (kept (patched items.now.list patch.now)) stale.items }
    ensures { IfOk result
        (λ found. AreRenderings (kept (patched items.now.list patch.now)) stale.items found.items) }
{
    let mut renderer = Renderer::new(alloc);
    let mut found = Vec::with_capacity(alloc, stale.len())?;
    for rechecked in stale {
        let planned = render(alloc, &mut renderer, items, patch, rechecked)?;
        found.push(planned)?;
    }
    Ok(found)
}

/// What is to be kept of a stale item.
fn render(
    alloc: Global,
    renderer: &mut Renderer,
    items: &Items<Content>,
    patch: &ItemPatch<Content>,
    rechecked: Rechecked,
) -> Result<PlannedResult, NoMemory>
    requires among { LiesAmong items.now.list patch.now }
    requires made { All IsMade (kept (patched items.now.list patch.now)) }
    requires defined { HasDefinitionAt (kept (patched items.now.list patch.now)) rechecked.item }
    ensures { IfOk result
        (λ planned. IsRendering (kept (patched items.now.list patch.now)) rechecked planned) }
{
    let Some(kept) = kept_behind(items, patch, rechecked.item) else {
        unreachable!();
    };
    let Some(definition) = kept.definition() else {
        unreachable!();
    };
    let checked = rechecked.checked;
    let pieces = new_pieces(renderer, definition, &checked, kept.pieces().is_some())?;
    Ok(PlannedResult {
        item: rechecked.item,
        found: Box::new(alloc, CheckResult { checked, pieces })?,
    })
}
