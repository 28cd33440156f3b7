//! The checks of the items of a text.

ghost use Rattle.std.specs.Prelude.{◌≡◌, ◌+◌, ℕ, List, [], ◌∷◌, All, Option, None, Some, map, length, IfOk};
ghost use Rattle.std.specs.Prelude.{if◌then◌else◌};
ghost use Rattle.x_trees.specs.Tree as tree;
ghost use Rattle.x_trees.specs.View.{view_definition};
ghost use Rattle.x_trees.specs.Spell.{IsShort};
ghost use Rattle.x_names.specs.Declarers.{AreShort, FirstIs};
ghost use Rattle.x_names.specs.DeclarerTable.{first_in};
ghost use Rattle.x_trees.specs.View.{tree_at};
ghost use Rattle.x_rules.specs.KeptViews.{lent_outcome};
ghost use Rattle.x_outline.specs.Outlines.{IsOutline, outlined};
ghost use Rattle.x_rules.specs.Results.{IsResult, result_at};
ghost use Rattle.x_rules.specs.RustViews.{view_view};
ghost use Rattle.x_trees.specs.Seen.{names_of};
ghost use Rattle.x_compile.specs.Known.{known_names};
ghost use Rattle.x_compile.specs.Checking.{AreChecked, IsShortAt, all_checked, kept_definitions};
ghost use Rattle.x_compile.specs.Checking.{sound_pieces, view_by_first};
ghost use Rattle.x_compile.specs.KeptView.{found_pieces, found_result};
ghost use Rattle.x_compile.specs.KeptView.{kept_definition, kept_found, renewed_pieces};

use crate::content::{CheckResult, Content, faults_of};
use crate::known::KnownDefinitions;
use std::alloc::Global;
use x_gen::{Pieces, Renderer};
use x_hash::HashKey;
use x_item::Definition;
use x_names::{Declarer, Names};
use x_rules::{Checked, Outline, View, check_outline};
use x_text::{Meter, NoMemory};

/// What checking the items of a text finds.
#[derive(Drop)]
pub struct Checks {
    /// Of each item, in their order, what was found of its definition if it has one: with its pieces where it
    /// has no fault.
    pub results: Vec<Option<Box<CheckResult>>>,
    /// How many faults the items have.
    pub faults: usize,
}

/// Checks the items of a text, none of which is checked yet, in their order, over tables that hash by the
/// key, where `known` is known before the text. Counts each that has a definition as checked.
pub fn check_all(
    alloc: Global,
    hash_key: HashKey,
    known: &KnownDefinitions,
    items: &[&Content],
    meter: &mut Meter,
) -> Result<Checks, NoMemory>
    requires short { AreShort (kept_definitions (map (λ k. k.now) items.now)) }
    requires unchecked { All (λ k. kept_found k.now ≡ None) items.now }
    ensures checked { IfOk result
        (λ checks. AreChecked (known_names known.now) (map (λ k. k.now) items.now) checks.results.items
        checks.faults) }
    ensures counted { IfOk result
        (λ checks. meter.new ≡ all_checked meter.old (kept_definitions (map (λ k. k.now) items.now))) }
{
    let names = names_of(alloc, hash_key, items)?;
    check_items(alloc, items, &names, known, meter)
}

/// The table of the names that the items declare.
fn names_of<'i>(
    alloc: Global,
    hash_key: HashKey,
    items: &[&'i Content],
) -> Result<Names<'i>, NoMemory>
    ensures { IfOk result (λ names. AreShort (kept_definitions (map (λ k. k.now) items.now))
        → (name : List ℕ)
        → FirstIs (kept_definitions (map (λ k. k.now) items.now)) name (first_in names name)) }
{
    Names::keyed(alloc, hash_key, &definitions_in(alloc, items)?)
}

/// The definition of each item.
fn definitions_in<'i>(
    alloc: Global,
    items: &[&'i Content],
) -> Result<Vec<Option<&'i Definition>>, NoMemory>
    ensures { IfOk result (λ definitions. map tree_at definitions.items
        ≡ kept_definitions (map (λ k. k.now) items.now)) }
{
    let mut definitions = Vec::with_capacity(alloc, items.len())?;
    for item in items {
        definitions.push(item.definition())?;
    }
    Ok(definitions)
}

/// What checking the items finds, in their order. Each is checked by what was found of the items before it.
fn check_items(
    alloc: Global,
    items: &[&Content],
    names: &Names,
    known: &KnownDefinitions,
    meter: &mut Meter,
) -> Result<Checks, NoMemory>
    requires short { AreShort (kept_definitions (map (λ k. k.now) items.now)) }
    requires first { (name : List ℕ)
        → FirstIs (kept_definitions (map (λ k. k.now) items.now)) name (first_in names.now name) }
    requires unchecked { All (λ k. kept_found k.now ≡ None) items.now }
    ensures checked { IfOk result
        (λ checks. AreChecked (known_names known.now) (map (λ k. k.now) items.now) checks.results.items
        checks.faults) }
    ensures counted { IfOk result
        (λ checks. meter.new ≡ all_checked meter.old (kept_definitions (map (λ k. k.now) items.now))) }
{
    let mut results = Vec::with_capacity(alloc, items.len())?;
    let mut faults: usize = 0;
    let mut walk = Walk {
        last: None,
        declared: 0,
        renderer: Renderer::new(alloc),
    };
    for item in items {
        let found = check(alloc, item, &mut walk, names, known, &results, meter)?;
        faults = sum_of(faults, item.fault_count(faults_of(&found)))?;
        results.push(found)?;
    }
    Ok(Checks { results, faults })
}

/// The sum of two counts: one that does not fit is told as want of memory, as no text has so many faults.
pub fn sum_of(count: usize, more: usize) -> Result<usize, NoMemory>
    ensures { IfOk result (λ sum. sum ≡ count + more) }
{
    count.checked_add(more).ok_or(NoMemory)
}

/// What goes on from item to item.
#[derive(Drop)]
struct Walk<'i> {
    /// The last outline, whose memory the next takes.
    last: Option<Outline<'i>>,
    /// How many names the items so far declare.
    declared: usize,
    renderer: Renderer,
}

/// What checking the next item finds, if it has a definition, by what was found of the items before it.
fn check<'i>(
    alloc: Global,
    item: &'i Content,
    walk: &mut Walk<'i>,
    names: &Names,
    known: &KnownDefinitions,
    results: &[Option<Box<CheckResult>>],
    meter: &mut Meter,
) -> Result<Option<Box<CheckResult>>, NoMemory>
    requires { kept_found item.now ≡ None }
    ensures result { IfOk result (λ found. (definitions : List (Option tree.Definition))
        → IsShortAt (kept_definition item.now)
        → ((name : List ℕ) → FirstIs definitions name (first_in names.now name))
        → IsResult (known_names known.now) definitions (result_at (map found_result results.now))
        (length results.now) (kept_definition item.now) (found_result found)) }
    ensures rendered { IfOk result (λ found. renewed_pieces (found_pieces (kept_found item.now)) found
        ≡ sound_pieces (kept_definition item.now) (found_result found)) }
    ensures counted { IfOk result
        (λ found. meter.new ≡ all_checked meter.old (kept_definition item.now ∷ [])) }
{
    let Some(definition) = item.definition() else {
        return Ok(None);
    };
    let outline = outline_of(alloc, walk.last.take(), definition)?;
    let views = views_of(
        alloc,
        results.len(),
        &outline,
        walk.declared,
        names,
        known,
        results,
    )?;
    let checked = check_outline(alloc, names.hash_key(), &outline, &views, meter)?;
    walk.declared = walk.declared.saturating_add(outline.declared().len());
    walk.last = Some(outline);
    let pieces = new_pieces(&mut walk.renderer, definition, &checked, false)?;
    Ok(Some(Box::new(alloc, CheckResult { checked, pieces })?))
}

/// The outline of a definition, in the memory of the last, if there is one.
fn outline_of<'d>(
    alloc: Global,
    last: Option<Outline<'d>>,
    definition: &'d Definition,
) -> Result<Outline<'d>, NoMemory>
    ensures definition { IfOk result (λ outline. outline.definition ≡ definition.entry) }
    ensures outline { IfOk result (λ outline. IsShort (view_definition definition.now) → IsOutline outline) }
{
    match last {
        Some(outline) => outline.again(alloc, definition),
        None => Outline::of(alloc, definition),
    }
}

/// What an item sees of the names that its definition declares, and then of those that it uses, by what was
/// found of the items before it, which declare so many names.
fn views_of<'v>(
    alloc: Global,
    item: usize,
    outline: &Outline,
    before: usize,
    names: &Names,
    known: &'v KnownDefinitions,
    results: &'v [Option<Box<CheckResult>>],
) -> Result<Vec<View<'v>>, NoMemory>
    ensures { IfOk result (λ views. IsOutline outline.now → map view_view views.items
        ≡ map (view_by_first (known_names known.now) (first_in names.now)
        (result_at (map found_result results.now)) item) (names_of (outlined outline.now))) }
{
    let mut views = Vec::with_capacity(
        alloc,
        outline
            .declared()
            .len()
            .saturating_add(outline.mentioned().len()),
    )?;
    for (place, declared) in outline.declared().iter().enumerate() {
        let first = names.first_at(before.saturating_add(place), &declared.name);
        views.push(view_of(item, &declared.name, known, first, results))?;
    }
    for mention in outline.mentioned() {
        let first = names.first(mention.name);
        views.push(view_of(item, mention.name, known, first, results))?;
    }
    Ok(views)
}

/// What an item sees of a name with this first declarer.
fn view_of<'v>(
    item: usize,
    name: &[u8],
    known: &'v KnownDefinitions,
    first: Option<Declarer>,
    results: &'v [Option<Box<CheckResult>>],
) -> View<'v>
    ensures { view_view result
        ≡ view_by_first (known_names known.now) (λ n. first) (result_at (map found_result results.now)) item
        name.now }
{
    let declaring = match first {
        Some(declarer) => checked_at(results, declarer.item),
        None => None,
    };
    View::of(item, name, known.view(name), first, declaring)
}

/// What was found of the item at an index.
fn checked_at(results: &[Option<Box<CheckResult>>], index: usize) -> Option<&Checked>
    ensures { lent_outcome result ≡ result_at (map found_result results.now) index }
{
    match results.get(index)? {
        Some(found) => Some(&found.checked),
        None => None,
    }
}

/// What is generated of a definition, where checking it found no fault and it has no pieces yet.
pub fn new_pieces(
    renderer: &mut Renderer,
    definition: &Definition,
    checked: &Checked,
    has_pieces: bool,
) -> Result<Option<Pieces>, NoMemory>
    ensures { IfOk result (λ pieces. pieces ≡ (if has_pieces then None
        else sound_pieces (Some (view_definition definition.now)) (Some checked.now))) }
{
    if has_pieces || !checked.faults().is_empty() {
        return Ok(None);
    }
    Ok(Some(renderer.render(definition, checked)?))
}
