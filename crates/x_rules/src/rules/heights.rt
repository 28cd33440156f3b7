//! How high types are.

ghost use Rattle.std.specs.Prelude.{◌≡◌, ◌++◌, ◌||◌, map, OnOk};
ghost use Rattle.std.specs.List.{list_any};
ghost use Rattle.x_trees.specs.Collected.{view_name};
ghost use Rattle.x_trees.specs.View.{view_definition};
ghost use Rattle.x_rules.specs.Found.{too_high, too_high_faults};
ghost use Rattle.x_rules.specs.Types.{defined_heights};
ghost use Rattle.x_trees.specs.Gloss.{use_by};
ghost use Rattle.x_trees.specs.View.{view_shape, view_type, view_body, view_declaration, view_declarations};
ghost use Rattle.x_trees.specs.View.{view_arms, view_default};
ghost use Rattle.x_rules.specs.Types.{seen_height, type_height, body_height, held_height};
ghost use Rattle.x_rules.specs.Types.{fields_height, arms_height, default_height};
ghost use Rattle.x_rules.specs.Tables.{seen_by, capped, is_by_value, is_too_high};

use super::classes::type_seen;
use super::found::add_fault;
use super::mentioned::suits;
use super::sights::Sights;
use crate::fault::{RuleCode, WordFault};
use crate::views::MOST_HEIGHT;
use x_outline::BodyAt;
use x_text::NoMemory;
use x_trees::{
    Arm, Body, DataType, Declaration, DeclaredName, Definition, Length, Shape, Tag, UnionBody,
};

/// The height of a type that a name is seen to be; 0 where its use has a fault.
fn seen_height(sights: &Sights, name: &[u8], tag: Option<Tag>) -> u32
    ensures { result ≡ seen_height (seen_by sights.now name.now) tag }
{
    match type_seen(sights.see(name), tag) {
        Some(sight) => sight.height,
        None => 0,
    }
}

/// Whether a declaration of the shape holds values of its type.
fn is_held(shape: &Shape) -> bool
    ensures { result ≡ is_by_value (use_by (view_shape shape.now)) }
{
    match shape {
        Shape::Plain => true,
        Shape::Optional => false,
        Shape::Array(length) => match length {
            Length::Fixed(_) => true,
            Length::Variable(_) => false,
        },
    }
}

#[cycle(height)]
fn type_height(sights: &Sights, tree: &DataType) -> u32
    ensures { result ≡ capped (type_height (seen_by sights.now) (view_type tree.now)) }
{
    match tree {
        DataType::Basic(_) => 0,
        DataType::Named(name) => seen_height(sights, name, None),
        DataType::Tagged { tag, name } => seen_height(sights, name, Some(*tag)),
        DataType::Inline(body) => body_height(sights, body),
    }
}

/// The height of the type of a body: 1 more than the greatest of those that it holds, and at most the
/// greatest number.
#[cycle(height)]
pub fn body_height(sights: &Sights, body: &Body) -> u32
    ensures { result ≡ capped (body_height (seen_by sights.now) (view_body body.now)) }
{
    match body {
        Body::Enum(_) => 1,
        Body::Struct(declarations) => fields_height(sights, declarations).saturating_add(1),
        Body::Union(body) => {
            let body: &UnionBody = body;
            let arms = arms_height(sights, &body.arms);
            let others = arms.max(default_height(sights, &body.default));
            let all = held_height(sights, &body.discriminant).max(others);
            all.saturating_add(1)
        }
    }
}

#[cycle(height)]
fn default_height(sights: &Sights, default: &Option<Declaration>) -> u32
    ensures { result ≡ capped (default_height (seen_by sights.now) (view_default default.now)) }
{
    match default {
        Some(declaration) => held_height(sights, declaration),
        None => 0,
    }
}

/// The height of what a declaration holds.
#[cycle(height)]
pub fn held_height(sights: &Sights, declaration: &Declaration) -> u32
    ensures { result ≡ capped (held_height (seen_by sights.now) (view_declaration declaration.now)) }
{
    match declaration {
        Declaration::Of { data, shape, .. } => {
            if is_held(shape) {
                type_height(sights, data)
            } else {
                0
            }
        }
        _ => 0,
    }
}

#[cycle(height)]
fn fields_height(sights: &Sights, declarations: &[Declaration]) -> u32
    ensures { result ≡ capped (fields_height (seen_by sights.now) (view_declarations declarations.now)) }
{
    let mut height = 0u32;
    for declaration in declarations {
        height = height.max(held_height(sights, declaration));
    }
    height
}

#[cycle(height)]
fn arms_height(sights: &Sights, arms: &[Arm]) -> u32
    ensures { result ≡ capped (arms_height (seen_by sights.now) (view_arms arms.now)) }
{
    let mut height = 0u32;
    for arm in arms {
        height = height.max(held_height(sights, &arm.declaration));
    }
    height
}

/// Whether the type that a typedef declares is too high.
fn is_too_high_typedef(definition: &Definition, sights: &Sights) -> bool
    ensures { result ≡ list_any is_too_high
        (defined_heights (view_definition definition.now) (seen_by sights.now)) }
{
    match definition {
        Definition::Typedef(declaration) => held_height(sights, declaration) >= MOST_HEIGHT,
        _ => false,
    }
}

/// Whether the type of one of the bodies is too high.
fn has_too_high_body(bodies: &[BodyAt], sights: &Sights) -> bool
    ensures { result ≡ list_any
        (λ b. is_too_high (body_height (seen_by sights.now) (view_body b.body.now))) bodies.now }
{
    for body in bodies {
        if body_height(sights, body.body) > MOST_HEIGHT {
            return true;
        }
    }
    false
}

/// The fault of a declared name, if a type of the definition is too high.
fn too_high_fault(high: bool, name: &DeclaredName) -> Option<RuleCode>
    ensures { result ≡ too_high high (view_name name.now) }
{
    if high && !name.lifted && suits(None, name.kind) {
        Some(RuleCode::TooHigh)
    } else {
        None
    }
}

/// Adds the fault of a type that is too high, at its own name.
fn add_too_high_names(
    faults: &mut Vec<WordFault>,
    high: bool,
    declared: &[DeclaredName],
) -> Result<(), NoMemory>
    ensures { OnOk result (faults.new.items ≡ faults.old.items
        ++ too_high_faults high (map view_name declared.now)) }
{
    for name in declared {
        let code = too_high_fault(high, name);
        add_fault(faults, name.word, code)?;
    }
    Ok(())
}

/// Adds the fault of a type that is too high, a lifted one too, at the own name of the definition.
pub fn add_too_high(
    faults: &mut Vec<WordFault>,
    definition: &Definition,
    declared: &[DeclaredName],
    bodies: &[BodyAt],
    sights: &Sights,
) -> Result<(), NoMemory>
    ensures { OnOk result (let see = seen_by sights.now in faults.new.items ≡ faults.old.items
        ++ too_high_faults (list_any is_too_high (defined_heights (view_definition definition.now) see)
        || list_any (λ b. is_too_high (body_height see (view_body b.body.now))) bodies.now)
        (map view_name declared.now)) }
{
    let high = is_too_high_typedef(definition, sights) || has_too_high_body(bodies, sights);
    add_too_high_names(faults, high, declared)
}
