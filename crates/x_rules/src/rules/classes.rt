//! What types are as discriminants.

ghost use Rattle.std.specs.Prelude.{◌≡◌, List, map, Some, option_map, IfOk};
ghost use Rattle.x_trees.specs.View.{view_type, view_body, view_declaration, view_enumerator};
ghost use Rattle.x_rules.specs.Constants.{Known, number_named};
ghost use Rattle.x_rules.specs.Found.{has_no_class};
ghost use Rattle.x_rules.specs.Types.{basic_class, body_class, declaration_class, type_class, type_seen};
ghost use Rattle.x_rules.specs.Types.{enum_class, enum_number, if_all};
ghost use Rattle.x_rules.specs.RustViews.{view_class, view_view};
ghost use Rattle.x_rules.specs.KeptViews.{kept_class};
ghost use Rattle.x_rules.specs.Tables.{OnNumbers, seen_by, view_sight};

use super::constants::Constants;
use super::mentioned::suits;
use super::sights::Sights;
use crate::checked::OwnedClass;
use crate::numbers::Numbers;
use crate::views::{Class, Meaning, View};
use std::alloc::Global;
use x_text::NoMemory;
use x_trees::{Basic, Body, DataType, Declaration, Enumerator, Shape, Tag};

/// What a use by value sees of a type.
#[derive(Clone, Copy, Debug)]
pub struct Sight<'v> {
    pub class: Class<'v>,
    pub height: u32,
}

/// The type that a use by value sees; none where the use has a fault.
pub fn type_seen<'v>(view: View<'v>, tag: Option<Tag>) -> Option<Sight<'v>>
    ensures { option_map view_sight result ≡ type_seen (view_view view.entry) tag }
{
    match view {
        View::Earlier { kind, meaning, .. } => match meaning {
            Meaning::Type { class, height } => {
                if suits(tag, kind) {
                    Some(Sight { class, height })
                } else {
                    None
                }
            }
            _ => None,
        },
        _ => None,
    }
}

/// The class of a type that is spelled by keywords alone.
fn basic_class(basic: Basic) -> Class<'static>
    ensures { view_class result ≡ basic_class basic }
{
    match basic {
        Basic::Int | Basic::Long => Class::Signed,
        Basic::Unsigned | Basic::UnsignedInt | Basic::UnsignedLong => Class::Unsigned,
        Basic::Bool => Class::Boolean,
        _ => Class::Other,
    }
}

/// The number, if an enum may have it.
fn enum_number(number: Option<i128>) -> Option<i32>
    ensures { result ≡ enum_number number }
{
    match number {
        Some(number) => match i32::try_from(number) {
            Ok(number) => Some(number),
            Err(_) => None,
        },
        None => None,
    }
}

/// The numbers of enumerators; none where one has none that an enum may have.
fn enum_numbers(
    alloc: Global,
    constants: &Constants,
    enumerators: &[Enumerator],
) -> Result<Option<Vec<i32>>, NoMemory>
    ensures { IfOk result (λ numbers. OnNumbers constants.now (λ _ known.
        option_map (λ list. list.items) numbers
        ≡ if_all (map (λ e. enum_number (number_named known e.name))
        (map view_enumerator enumerators.now)))) }
{
    let mut numbers = Vec::new(alloc);
    for enumerator in enumerators {
        let Some(number) = enum_number(constants.number_named(&enumerator.name)) else {
            return Ok(None);
        };
        numbers.push(number)?;
    }
    Ok(Some(numbers))
}

/// The class of an enum; none where an enumerator has no number that an enum may have.
fn enum_class(
    alloc: Global,
    constants: &Constants,
    enumerators: &[Enumerator],
) -> Result<Option<OwnedClass>, NoMemory>
    ensures { IfOk result (λ class. OnNumbers constants.now (λ _ known.
        option_map kept_class class ≡ enum_class known (map view_enumerator enumerators.now))) }
{
    match enum_numbers(alloc, constants, enumerators)? {
        Some(numbers) => Ok(Some(OwnedClass::Enumeration(Numbers::of(numbers)?))),
        None => Ok(None),
    }
}

/// Whether nothing can be told by the class.
fn is_other(class: Class) -> bool
    ensures { result ≡ has_no_class (Some (view_class class.entry)) }
{
    matches!(class, Class::Other)
}

/// Whether nothing can be told by the type that a name is seen to be.
fn has_no_named_class(view: View, tag: Option<Tag>) -> bool
    ensures { result ≡ has_no_class (option_map (λ s. s.class) (type_seen (view_view view.entry) tag)) }
{
    match type_seen(view, tag) {
        Some(sight) => is_other(sight.class),
        None => false,
    }
}

/// Whether nothing can be told by a type of the body.
fn has_no_body_class(body: &Body) -> bool
    ensures { (known : List Known) → result ≡ has_no_class (body_class known (view_body body.now)) }
{
    match body {
        Body::Enum(_) => false,
        Body::Struct(_) => true,
        Body::Union(_) => true,
    }
}

/// Whether nothing can be told by the type.
fn has_no_type_class(sights: &Sights, tree: &DataType) -> bool
    ensures { (known : List Known)
        → result ≡ has_no_class (type_class (seen_by sights.now) known (view_type tree.now)) }
{
    match tree {
        DataType::Basic(basic) => is_other(basic_class(*basic)),
        DataType::Named(name) => has_no_named_class(sights.see(name), None),
        DataType::Tagged { tag, name } => has_no_named_class(sights.see(name), Some(*tag)),
        DataType::Inline(body) => has_no_body_class(body),
    }
}

/// Whether no union can be told by what the declaration gives.
pub fn has_no_class(sights: &Sights, declaration: &Declaration) -> bool
    ensures { (known : List Known)
        → result ≡ has_no_class
        (declaration_class (seen_by sights.now) known (view_declaration declaration.now)) }
{
    match declaration {
        Declaration::Void => false,
        Declaration::Of { data, shape, .. } => match shape {
            Shape::Plain => has_no_type_class(sights, data),
            _ => true,
        },
        _ => true,
    }
}

/// The class of the type that a name is seen to be; none where the use has a fault.
fn named_class(view: View, tag: Option<Tag>) -> Result<Option<OwnedClass>, NoMemory>
    ensures { IfOk result (λ class. option_map kept_class class
        ≡ option_map (λ s. s.class) (type_seen (view_view view.entry) tag)) }
{
    match type_seen(view, tag) {
        Some(sight) => Ok(Some(OwnedClass::of(sight.class)?)),
        None => Ok(None),
    }
}

/// The class of the type of a body; none where it is not known.
pub fn body_class(
    alloc: Global,
    constants: &Constants,
    body: &Body,
) -> Result<Option<OwnedClass>, NoMemory>
    ensures { IfOk result (λ class. OnNumbers constants.now (λ _ known.
        option_map kept_class class ≡ body_class known (view_body body.now))) }
{
    match body {
        Body::Enum(enumerators) => enum_class(alloc, constants, enumerators),
        Body::Struct(_) => Ok(Some(OwnedClass::Other)),
        Body::Union(_) => Ok(Some(OwnedClass::Other)),
    }
}

/// The class of a type; none where it is not known.
fn type_class(
    alloc: Global,
    sights: &Sights,
    constants: &Constants,
    tree: &DataType,
) -> Result<Option<OwnedClass>, NoMemory>
    ensures { IfOk result (λ class. OnNumbers constants.now (λ _ known.
        option_map kept_class class ≡ type_class (seen_by sights.now) known (view_type tree.now))) }
{
    match tree {
        DataType::Basic(basic) => Ok(Some(OwnedClass::of(basic_class(*basic))?)),
        DataType::Named(name) => named_class(sights.see(name), None),
        DataType::Tagged { tag, name } => named_class(sights.see(name), Some(*tag)),
        DataType::Inline(body) => body_class(alloc, constants, body),
    }
}

/// The class of what a declaration gives; none where it is not known.
pub fn declaration_class(
    alloc: Global,
    sights: &Sights,
    constants: &Constants,
    declaration: &Declaration,
) -> Result<Option<OwnedClass>, NoMemory>
    ensures { IfOk result (λ class. OnNumbers constants.now (λ _ known.
        option_map kept_class class
        ≡ declaration_class (seen_by sights.now) known (view_declaration declaration.now))) }
{
    match declaration {
        Declaration::Void => Ok(None),
        Declaration::Of { data, shape, .. } => match shape {
            Shape::Plain => type_class(alloc, sights, constants, data),
            _ => Ok(Some(OwnedClass::Other)),
        },
        _ => Ok(Some(OwnedClass::Other)),
    }
}
