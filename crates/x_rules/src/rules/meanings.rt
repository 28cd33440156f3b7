//! What the names mean that an item declares.

ghost use Rattle.std.specs.Prelude.{◌≡◌, false, map, nat_eq, option_map, IfOk};
ghost use Rattle.std.specs.List.{list_any};
ghost use Rattle.x_trees.specs.Collected.{view_name};
ghost use Rattle.x_trees.specs.View.{view_definition};
ghost use Rattle.x_outline.specs.Bodies as outline;
ghost use Rattle.x_outline.specs.BodyWalks.{view_body_at};
ghost use Rattle.x_rules.specs.Constants.{knowns};
ghost use Rattle.x_rules.specs.KeptViews.{kept_class, kept_meaning};
ghost use Rattle.x_rules.specs.Meanings.{body_named, counted_type, counted_definition};
ghost use Rattle.x_rules.specs.Results.{type_of, constant_number, constant_of, meaning_of};
ghost use Rattle.x_rules.specs.Tables.{HasNumbers, OnNumbers, seen_by, is_too_high};
ghost use Rattle.x_rules.specs.Types.{heights};

use super::classes::{body_class, declaration_class};
use super::constants::Constants;
use super::first_places::{FirstPlaces, Keyed};
use super::heights::{body_height, held_height};
use super::sights::Sights;
use crate::checked::{KeptMeanings, OwnedClass, OwnedMeaning};
use smallvec::SmallVec;
use std::alloc::Global;
use x_outline::BodyAt;
use x_text::NoMemory;
use x_trees::{DeclaredName, Definition, NameKind};

impl Keyed<usize> for BodyAt<'_> {
    ghost has_key = { λ body word. nat_eq word body.named };

    fn key(&self) -> usize {
        self.named
    }
}

/// The first body whose type's name stands at the word.
fn body_named<'v, 'd>(
    bodies: &FirstPlaces<'v, BodyAt<'d>, usize>,
    word: usize,
) -> Option<&'v BodyAt<'d>>
    ensures { option_map (λ b. view_body_at b.now) result ≡ body_named (map view_body_at bodies.now) word }
{
    match bodies.get(word) {
        Some(place) => bodies.items().get(place),
        None => None,
    }
}

/// What a type means whose class is known.
fn type_meaning(class: Option<OwnedClass>, height: u32) -> OwnedMeaning
    ensures { kept_meaning result ≡ type_of (option_map kept_class class) height }
{
    match class {
        Some(class) => OwnedMeaning::Type { class, height },
        None => OwnedMeaning::Bad,
    }
}

/// What a constant means whose number is known.
fn number_meaning(number: Option<i128>) -> OwnedMeaning
    ensures { kept_meaning result ≡ constant_of number }
{
    match number {
        Some(number) => OwnedMeaning::Constant(number),
        None => OwnedMeaning::Bad,
    }
}

/// What the name of a body's type means.
fn named_meaning(
    alloc: Global,
    body: Option<&BodyAt>,
    sights: &Sights,
    constants: &Constants,
) -> Result<OwnedMeaning, NoMemory>
    ensures { IfOk result (λ kept. OnNumbers constants.now (λ _ known.
        kept_meaning kept
        ≡ counted_type (seen_by sights.now) known (option_map (λ b. view_body_at b.now) body.entry))) }
{
    match body {
        Some(body) => Ok(type_meaning(
            body_class(alloc, constants, body.body)?,
            body_height(sights, body.body),
        )),
        None => Ok(OwnedMeaning::Bad),
    }
}

/// What the name of a typedef means.
fn typedef_meaning(
    alloc: Global,
    definition: &Definition,
    sights: &Sights,
    constants: &Constants,
) -> Result<OwnedMeaning, NoMemory>
    ensures { IfOk result (λ kept. OnNumbers constants.now (λ _ known.
        kept_meaning kept ≡ counted_definition (seen_by sights.now) known (view_definition definition.now))) }
{
    match definition {
        Definition::Typedef(declaration) => Ok(type_meaning(
            declaration_class(alloc, sights, constants, declaration)?,
            held_height(sights, declaration).saturating_add(1),
        )),
        _ => Ok(OwnedMeaning::Bad),
    }
}

/// The number of a constant of the name.
fn constant_number(
    definition: &Definition,
    name: &[u8],
    sights: &Sights,
    constants: &Constants,
) -> Option<i128>
    ensures { let d = view_definition definition.now in let see = seen_by sights.now in
        HasNumbers constants.now (outline.enumerators d) (knowns see (outline.enumerators d))
        → result ≡ constant_number d see name.now }
{
    match definition {
        Definition::Const { value, .. } => constants.number_at(sights, 3, value),
        _ => constants.number_named(name),
    }
}

/// What a declared name means.
fn meaning(
    alloc: Global,
    name: &DeclaredName,
    definition: &Definition,
    bodies: &FirstPlaces<BodyAt, usize>,
    sights: &Sights,
    constants: &Constants,
) -> Result<OwnedMeaning, NoMemory>
    ensures { IfOk result (λ kept. let d = view_definition definition.now in let see = seen_by sights.now in
        HasNumbers constants.now (outline.enumerators d) (knowns see (outline.enumerators d))
        → map view_body_at bodies.now ≡ outline.bodies d
        → list_any is_too_high (heights d see) ≡ false
        → kept_meaning kept ≡ meaning_of d see (view_name name.now)) }
{
    match name.kind {
        NameKind::Constant => Ok(number_meaning(constant_number(
            definition, &name.name, sights, constants,
        ))),
        NameKind::Typedef => typedef_meaning(alloc, definition, sights, constants),
        NameKind::Program => Ok(OwnedMeaning::Program),
        _ => named_meaning(alloc, body_named(bodies, name.word), sights, constants),
    }
}

/// What declared names mean.
fn meanings_by(
    alloc: Global,
    definition: &Definition,
    declared: &[DeclaredName],
    bodies: &FirstPlaces<BodyAt, usize>,
    sights: &Sights,
    constants: &Constants,
) -> Result<KeptMeanings, NoMemory>
    ensures { IfOk result (λ list. let d = view_definition definition.now in let see = seen_by sights.now in
        HasNumbers constants.now (outline.enumerators d) (knowns see (outline.enumerators d))
        → map view_body_at bodies.now ≡ outline.bodies d
        → list_any is_too_high (heights d see) ≡ false
        → map kept_meaning list.items ≡ map (meaning_of d see) (map view_name declared.now)) }
{
    let mut list = SmallVec::with_capacity(alloc, declared.len())?;
    for name in declared {
        let kept = meaning(alloc, name, definition, bodies, sights, constants)?;
        list.push(kept)?;
    }
    Ok(list)
}

/// What the names mean that a definition without a fault declares.
pub fn meanings(
    alloc: Global,
    definition: &Definition,
    declared: &[DeclaredName],
    bodies: &[BodyAt],
    sights: &Sights,
    constants: &Constants,
) -> Result<KeptMeanings, NoMemory>
    ensures { IfOk result (λ list. let d = view_definition definition.now in let see = seen_by sights.now in
        HasNumbers constants.now (outline.enumerators d) (knowns see (outline.enumerators d))
        → map view_body_at bodies.now ≡ outline.bodies d
        → list_any is_too_high (heights d see) ≡ false
        → map kept_meaning list.items ≡ map (meaning_of d see) (map view_name declared.now)) }
{
    let bodies = FirstPlaces::of(alloc, sights.hash_key, bodies)?;
    meanings_by(alloc, definition, declared, &bodies, sights, constants)
}
