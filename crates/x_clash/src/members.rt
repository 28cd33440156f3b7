//! The members of the structs and unions of C.

ghost use Rattle.std.specs.Prelude.{◌≡◌, ◌++◌, map, OnOk, IfOk, option_map};
ghost use Rattle.x_trees.specs.View.{view_arms, view_declaration, view_declarations, view_default};
ghost use Rattle.x_trees.specs.View.{view_length, view_shape, view_union};
ghost use Rattle.x_outline.specs.BodyWalks.{view_body_at, IsFilled};
ghost use Rattle.x_outline.specs.Parts.{view_name_at};
ghost use Rattle.x_pieces.specs.Header.{are_void, is_void_default};
ghost use Rattle.x_clash.specs.Given.{arm_names, default_names, discriminant_named, field_names};
ghost use Rattle.x_clash.specs.Given.{fields_after, length_names, member_names, members_in};
ghost use Rattle.x_clash.specs.Given.{struct_names, variant_names};
ghost use Rattle.x_clash.specs.Parts.{is_counted, is_counted_shape, is_variable};
ghost use Rattle.x_clash.specs.Views.{view_all};

use crate::given::{Given, Sort, add_made, add_spelled, joined, others};
use std::alloc::Global;
use std::borrow::CowSlice;
use x_outline::{BodyAt, NameAt};
use x_text::NoMemory;
use x_trees::{Arm, Body, Declaration, Length, Shape, UnionBody};

/// Whether the length of an array is told beside its elements.
fn is_variable(length: &Length) -> bool
    ensures { result ≡ is_variable (view_length length.now) }
{
    matches!(length, Length::Variable(_))
}

fn is_counted_shape(shape: &Shape) -> bool
    ensures { result ≡ is_counted_shape (view_shape shape.now) }
{
    match shape {
        Shape::Array(length) => is_variable(length),
        _ => false,
    }
}

/// Whether what a declaration declares is a struct of a length and elements in C.
fn is_counted(declaration: &Declaration) -> bool
    ensures { result ≡ is_counted (view_declaration declaration.now) }
{
    match declaration {
        Declaration::Of { shape, .. } => is_counted_shape(shape),
        Declaration::Opaque { length, .. } => is_variable(length),
        _ => false,
    }
}

/// Adds the members that tell how many elements a name has, and which, at its word.
pub fn add_length<'d>(
    alloc: Global,
    list: &mut Vec<Given<'d>>,
    name: &[u8],
    word: usize,
    declaration: &Declaration,
) -> Result<(), NoMemory>
    ensures { OnOk result (view_all list.new.items ≡ view_all list.old.items
        ++ length_names name.now word (view_declaration declaration.now)) }
{
    if !is_counted(declaration) {
        return Ok(());
    }
    add_made(alloc, list, &[name, b"_len"], word, Sort::Member)?;
    add_made(alloc, list, &[name, b"_val"], word, Sort::Member)
}

/// Adds what a declaration gives, whose name is the first of these, if it has one.
fn add_field<'d>(
    alloc: Global,
    list: &mut Vec<Given<'d>>,
    names: &[NameAt<'d>],
    declaration: &Declaration,
) -> Result<(), NoMemory>
    ensures { OnOk result (view_all list.new.items ≡ view_all list.old.items
        ++ field_names (map view_name_at names.now) (view_declaration declaration.now)) }
{
    if declaration.is_void() {
        return Ok(());
    }
    match names.first() {
        Some(field) => {
            add_spelled(list, field.name, field.word, Sort::Member)?;
            add_length(alloc, list, field.name, field.word, declaration)
        }
        None => Ok(()),
    }
}

/// The names that are left after a declaration.
fn fields_after<'b, 'd>(names: &'b [NameAt<'d>], declaration: &Declaration) -> &'b [NameAt<'d>]
    ensures { map view_name_at result.now
        ≡ fields_after (map view_name_at names.now) (view_declaration declaration.now) }
{
    if declaration.is_void() {
        return names;
    }
    others(names)
}

/// Adds the fields of a struct.
fn add_fields<'d>(
    alloc: Global,
    list: &mut Vec<Given<'d>>,
    names: &[NameAt<'d>],
    declarations: &[Declaration],
) -> Result<(), NoMemory>
    ensures { OnOk result (view_all list.new.items ≡ view_all list.old.items
        ++ struct_names (map view_name_at names.now) (view_declarations declarations.now)) }
{
    let mut names = names;
    for declaration in declarations {
        add_field(alloc, list, names, declaration)?;
        names = fields_after(names, declaration);
    }
    Ok(())
}

/// Adds what the arms of a union and its default hold.
fn add_arms<'d>(
    alloc: Global,
    list: &mut Vec<Given<'d>>,
    names: &[NameAt<'d>],
    arms: &[Arm],
    default: &Option<Declaration>,
) -> Result<(), NoMemory>
    ensures { OnOk result (view_all list.new.items ≡ view_all list.old.items
        ++ arm_names (map view_name_at names.now) (view_arms arms.now) (view_default default.now)) }
{
    let mut names = names;
    for arm in arms {
        add_field(alloc, list, names, &arm.declaration)?;
        names = fields_after(names, &arm.declaration);
    }
    add_default(alloc, list, names, default)
}

/// Adds what the default of a union holds.
fn add_default<'d>(
    alloc: Global,
    list: &mut Vec<Given<'d>>,
    names: &[NameAt<'d>],
    default: &Option<Declaration>,
) -> Result<(), NoMemory>
    ensures { OnOk result (view_all list.new.items ≡ view_all list.old.items
        ++ default_names (map view_name_at names.now) (view_default default.now)) }
{
    match default {
        Some(declaration) => add_field(alloc, list, names, declaration),
        None => Ok(()),
    }
}

/// Whether no arm of a union holds anything.
fn are_void(arms: &[Arm], default: &Option<Declaration>) -> bool
    ensures { result ≡ are_void (view_arms arms.now) (view_default default.now) }
{
    for arm in arms {
        if !arm.declaration.is_void() {
            return false;
        }
    }
    is_void_default(default)
}

fn is_void_default(default: &Option<Declaration>) -> bool
    ensures { result ≡ is_void_default (view_default default.now) }
{
    match default {
        Some(declaration) => declaration.is_void(),
        None => true,
    }
}

/// The word of the first of the names, if it is this one.
fn first_named(name: &[u8], names: &[NameAt]) -> Option<usize>
    ensures { result ≡ discriminant_named name.now (map view_name_at names.now) }
{
    match names.first() {
        Some(first) if first.name == name => Some(first.word),
        _ => None,
    }
}

/// Adds the member that holds what the arms of a union hold, if they hold anything.
fn add_variant<'d>(
    alloc: Global,
    list: &mut Vec<Given<'d>>,
    around: &[u8],
    word: usize,
    names: &[NameAt<'d>],
    arms: &[Arm],
    default: &Option<Declaration>,
) -> Result<(), NoMemory>
    ensures { OnOk result (view_all list.new.items ≡ view_all list.old.items
        ++ variant_names around.now word (map view_name_at names.now)
        (view_arms arms.now) (view_default default.now)) }
{
    if are_void(arms, default) {
        return Ok(());
    }
    let name = joined(alloc, &[around, b"_u"])?;
    let twin = first_named(&name, names);
    list.push(Given {
        name: CowSlice::Owned(name),
        word,
        sort: Sort::Member,
        twin,
    })?;
    Ok(())
}

/// Adds the members of a union.
fn add_union<'d>(
    alloc: Global,
    list: &mut Vec<Given<'d>>,
    around: &[u8],
    word: usize,
    names: &[NameAt<'d>],
    union: &UnionBody,
) -> Result<(), NoMemory>
    ensures { OnOk result (view_all list.new.items ≡ view_all list.old.items
        ++ members_in around.now word (map view_name_at names.now) (view_union union.now)) }
{
    add_field(alloc, list, names, &union.discriminant)?;
    let left = fields_after(names, &union.discriminant);
    add_arms(alloc, list, left, &union.arms, &union.default)?;
    add_variant(
        alloc,
        list,
        around,
        word,
        names,
        &union.arms,
        &union.default,
    )
}

/// Adds the members of the type of this name, whose body this is.
pub fn add_members<'d>(
    alloc: Global,
    list: &mut Vec<Given<'d>>,
    around: &[u8],
    body: &BodyAt<'d>,
) -> Result<(), NoMemory>
    ensures { OnOk result (IsFilled body.now → view_all list.new.items
        ≡ view_all list.old.items ++ member_names around.now (view_body_at body.now)) }
{
    match body.body {
        Body::Enum(_) => Ok(()),
        Body::Struct(declarations) => add_fields(alloc, list, &body.fields, declarations),
        Body::Union(union) => add_union(alloc, list, around, body.named, &body.fields, union),
    }
}
