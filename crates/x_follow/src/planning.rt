//! What an edit does to all that is kept of a text: first it is planned, for which memory may be refused, and
//! then it is carried out, which takes none.

ghost use Rattle.std.specs.Prelude.{◌≡◌, ◌+◌, ◌≤◌, All, IfOk, None, length};
ghost use Rattle.x_streams.specs.Counters.{raised};
ghost use Rattle.x_text.specs.Edits.{Change, change_of, edited_by, LiesWithin};
ghost use Rattle.x_lists.specs.Seqs.{distance};
ghost use Rattle.x_lex.specs.Places.{lexemes};
ghost use Rattle.x_lex.specs.Relex.{IsPatch};
ghost use Rattle.x_lex.specs.Tiling.{AreTokens, end_of};
ghost use Rattle.x_lex.specs.TokenList as tokens_of;
ghost use Rattle.x_cutting.specs.ItemList as items_of;
ghost use Rattle.x_cutting.specs.ItemList.{AreOfText, counts};
ghost use Rattle.x_cutting.specs.Recut.{IsRelexed, IsItemPatch};
ghost use Rattle.x_names.specs.Declarers.{AreShort};
ghost use Rattle.x_follow.specs.Following.{AreFollowed, AreStaleChecked, AreUsed, CanCarryOut};
ghost use Rattle.x_follow.specs.Following.{HasRoomForNames, IsCheckedTable, IsNameChange, IsPlan};
ghost use Rattle.x_follow.specs.Following.{IsToFollow};
ghost use Rattle.x_follow.specs.Following.{behind};
ghost use Rattle.x_compile.specs.Known.{known_names};
ghost use Rattle.x_compile.specs.KeptView.{AreParsed, AreWith, entry_definitions, kept_found};
ghost use Rattle.x_follow.specs.Moves.{changed_items, moves, splice_of, seat_behind};
ghost use Rattle.x_follow.specs.Planned.{numbers_of};

use crate::counting::faults_behind;
use crate::fresh::parse_fresh;
use crate::naming::{NameChange, change_names, fresh_definitions};
use crate::placing::put_changes;
use crate::planned::PlannedResult;
use crate::stale::check_stale_items;
use std::alloc::Global;
use x_compile::{Content, ItemTable, KnownDefinitions};
use x_cutting::{ItemPatch, Items, recut};
use x_lex::{Patch, Tokens, relex};
use x_text::{Edit, Meter, NoMemory, Source};

/// What is to become of what is kept of a text.
#[derive(Drop)]
pub struct Plan {
    /// What becomes of the tokens.
    pub tokens: Patch,
    /// What becomes of the items: each fresh one has what it parses to.
    pub items: ItemPatch<Content>,
    /// What becomes of the table of names.
    pub names: NameChange,
    /// What checking finds of the items that the edit makes stale, in their order.
    pub found: Vec<PlannedResult>,
    /// How many faults the items have then.
    pub faults: usize,
}

/// Plans the edit that makes `new` of the text `old`, whose tokens and items these are: they stay, but for
/// the room that there is for more of them, and the table of names, which is made where there was none.
/// `known` is known before the text.
pub fn plan_edit(
    alloc: Global,
    known: &KnownDefinitions,
    old: &Source,
    edit: &Edit,
    new: &Source,
    tokens: &mut Tokens,
    items: &mut ItemTable,
    meter: &mut Meter,
) -> Result<Plan, NoMemory>
    requires { IsToFollow (known_names known.now) (change_of old.now edit.now) new.now tokens.old.list
        items.old }
    ensures plan { IfOk result
        (λ plan. IsPlan (known_names known.now) (change_of old.now edit.now) tokens.old.list
        items.old.entries.list plan) }
    ensures room { IfOk result (λ plan. CanCarryOut tokens.new items.new plan) }
    ensures tokens { tokens.new.list ≡ tokens.old.list }
    ensures token_seat { tokens.new.seat ≡ tokens.old.seat }
    ensures tokens_still { tokens.new.moved ≡ tokens.old.moved }
    ensures items { items.new.entries.list ≡ items.old.entries.list }
    ensures item_seat { items.new.entries.seat ≡ items.old.entries.seat }
    ensures items_still { items.new.entries.moved ≡ items.old.entries.moved }
    ensures faults { items.new.faults ≡ items.old.faults }
    ensures uses { AreUsed items.new.entries.list items.new.uses }
    ensures lexed { IfOk result
        (λ plan. meter.new.lexed ≡ raised meter.old.lexed (length plan.tokens.fresh)) }
    ensures parsed { IfOk result
        (λ plan. meter.new.parsed ≡ raised meter.old.parsed (length plan.items.fresh)) }
    ensures checked { IfOk result
        (λ plan. meter.new.checked ≡ raised meter.old.checked (length plan.found.items)) }
    ensures moved { IfOk result (λ plan. meter.new.moved ≡ meter.old.moved) }
{
    let patch = next_tokens(alloc, old, edit, new, tokens, meter)?;
    let fresh = next_items(alloc, tokens, &patch, new, &mut items.entries, meter)?;
    let checks = plan_checks(alloc, known, items, &fresh, meter)?;
    let faults = faults_behind(items, &fresh, &checks.found)?;
    Ok(Plan {
        tokens: patch,
        items: fresh,
        names: checks.names,
        found: checks.found,
        faults,
    })
}

/// What becomes of the names of items, and of those that are stale.
#[derive(Drop)]
struct Checks {
    names: NameChange,
    found: Vec<PlannedResult>,
}

/// Plans what becomes of the names of items, and of those that are stale, where an edit does this to the
/// items. The table of names is made where there was none. Counts each stale item as checked.
fn plan_checks(
    alloc: Global,
    known: &KnownDefinitions,
    items: &mut ItemTable,
    fresh: &ItemPatch<Content>,
    meter: &mut Meter,
) -> Result<Checks, NoMemory>
    requires among { items_of.LiesAmong items.old.entries.list fresh.now }
    requires of_text { AreOfText (counts (items_of.patched items.old.entries.list fresh.now)) }
    requires checked { IsCheckedTable (known_names known.now) items.old }
    requires short { AreShort (entry_definitions fresh.now.fresh) }
    requires unchecked { All (λ e. kept_found e.kept ≡ None) fresh.now.fresh }
    ensures entries { items.new.entries ≡ items.old.entries }
    ensures faults { items.new.faults ≡ items.old.faults }
    ensures uses { AreUsed items.old.entries.list items.new.uses }
    ensures change { IfOk result (λ checks. IsNameChange items.old.entries.list fresh.now checks.names) }
    ensures room { IfOk result (λ checks. HasRoomForNames items.new.uses checks.names) }
    ensures stale { IfOk result
        (λ checks. AreStaleChecked (known_names known.now) items.new.entries.list fresh.now
        checks.found.items) }
    ensures ticks { IfOk result (λ checks. meter.new
        ≡ record meter.old { checked = raised meter.old.checked (length checks.found.items) }) }
{
    let put = fresh_definitions(alloc, fresh)?;
    let names = change_names(alloc, items, fresh, &put)?;
    let found = check_stale_items(alloc, known, items, fresh, &put, &names, meter)?;
    Ok(Checks { names, found })
}

/// What the edit does to the tokens, and makes room for it.
fn next_tokens(
    alloc: Global,
    old: &Source,
    edit: &Edit,
    new: &Source,
    tokens: &mut Tokens,
    meter: &mut Meter,
) -> Result<Patch, NoMemory>
    requires tokens { AreTokens old.now tokens.old.list }
    requires within { LiesWithin (change_of old.now edit.now) }
    requires edited { new.now ≡ edited_by (change_of old.now edit.now) }
    ensures patch { IfOk result (λ patch. IsPatch (change_of old.now edit.now) tokens.old.list patch) }
    ensures of_text { IfOk result (λ patch. tokens_of.IsOfText (tokens_of.patched tokens.old.list patch)) }
    ensures behind { IfOk result
        (λ patch. edit.now.end ≤ end_of tokens.old.list (patch.at + patch.removed)) }
    ensures room { IfOk result (λ patch. tokens_of.HasRoom tokens.new patch) }
    ensures list { tokens.new.list ≡ tokens.old.list }
    ensures seat { tokens.new.seat ≡ tokens.old.seat }
    ensures still { tokens.new.moved ≡ tokens.old.moved }
    ensures ticks { IfOk result (λ patch. meter.new.lexed ≡ raised meter.old.lexed (length patch.fresh)) }
    ensures others { meter.new ≡ record meter.old { lexed = meter.new.lexed } }
{
    let patch = relex(alloc, tokens, old, edit, new, meter)?;
    tokens.reserve(&patch)?;
    Ok(patch)
}

/// What an edit that does this to the tokens does to the items, and makes room for it. Counts each fresh item
/// as parsed.
fn next_items(
    alloc: Global,
    tokens: &Tokens,
    patch: &Patch,
    text: &Source,
    items: &mut Items<Content>,
    meter: &mut Meter,
) -> Result<ItemPatch<Content>, NoMemory>
    requires { AreFollowed text.now tokens.now.list items.old.list patch.now }
    ensures recut { IfOk result (λ fresh. (change : Change)
        → IsRelexed change text.now tokens.now.list (items_of.counts items.old.list) patch.now
        → IsItemPatch change tokens.now.list (tokens_of.patched tokens.now.list patch.now)
        items.old.list fresh) }
    ensures among { IfOk result (λ fresh. items_of.LiesAmong items.old.list fresh) }
    ensures of_text { IfOk result
        (λ fresh. items_of.AreOfText (items_of.counts (items_of.patched items.old.list fresh))) }
    ensures parsed { IfOk result
        (λ fresh. AreParsed (lexemes text.now (tokens_of.patched tokens.now.list patch.now))
        (items_of.patched items.old.list fresh)) }
    ensures unchecked { IfOk result (λ fresh. All (λ e. kept_found e.kept ≡ None) fresh.fresh) }
    ensures room { IfOk result (λ fresh. items_of.HasRoom items.new fresh) }
    ensures list { items.new.list ≡ items.old.list }
    ensures seat { items.new.seat ≡ items.old.seat }
    ensures still { items.new.moved ≡ items.old.moved }
    ensures ticks { IfOk result
        (λ fresh. meter.new.parsed ≡ raised meter.old.parsed (length fresh.fresh)) }
    ensures others { meter.new ≡ record meter.old { parsed = meter.new.parsed } }
{
    let mut fresh = recut(alloc, items, tokens, patch, text)?;
    items.reserve(&fresh)?;
    parse_fresh(alloc, tokens, patch, text, &mut fresh, meter)?;
    Ok(fresh)
}

/// Carries out what was planned. It takes no memory.
pub fn carry_out(plan: Plan, tokens: &mut Tokens, items: &mut ItemTable, meter: &mut Meter)
    requires room { CanCarryOut tokens.old items.old plan }
    requires uses { AreUsed items.old.entries.list items.old.uses }
    ensures tokens { tokens.new.list ≡ tokens_of.patched tokens.old.list plan.tokens }
    ensures token_seat { tokens.new.seat ≡ plan.tokens.at + length plan.tokens.fresh }
    ensures items { AreWith (items_of.patched items.old.entries.list plan.items)
        (behind items.old.entries.list plan.items plan.found.items) items.new.entries.list }
    ensures faults { items.new.faults ≡ plan.faults }
    ensures uses { AreUsed (items_of.patched items.old.entries.list plan.items) items.new.uses }
    ensures lexed { meter.new.lexed ≡ meter.old.lexed }
    ensures parsed { meter.new.parsed ≡ meter.old.parsed }
    ensures checked { meter.new.checked ≡ meter.old.checked }
    ensures moved { meter.old.moved ≡ 0 → meter.new.moved ≡ distance tokens.old.seat plan.tokens.at
        (plan.tokens.at + plan.tokens.removed) + moves items.old.entries.seat
        (changed_items (splice_of plan.items) (numbers_of plan.found.items)) }
    ensures tokens_counted { tokens.new.moved ≡ tokens.old.moved
        + distance tokens.old.seat plan.tokens.at (plan.tokens.at + plan.tokens.removed) }
    ensures items_counted { items.new.entries.moved ≡ items.old.entries.moved
        + moves items.old.entries.seat (changed_items (splice_of plan.items) (numbers_of plan.found.items)) }
    ensures item_seat { items.new.entries.seat ≡ seat_behind items.old.entries.seat
        (changed_items (splice_of plan.items) (numbers_of plan.found.items)) }
{
    let Plan {
        tokens: patch,
        items: fresh,
        names,
        found,
        faults,
    } = plan;
    // Reads of the counts show that they and what moves fit their types.
    let _counted = (tokens.len(), items.entries.len());
    names.carry_out(&mut items.uses);
    meter.add_moved(tokens.put(patch));
    meter.add_moved(put_changes(&mut items.entries, fresh, found));
    items.faults = faults;
}
