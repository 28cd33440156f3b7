//! The types of a definition that have bodies, each with its name.

ghost use Rattle.std.specs.Prelude.{◌≡◌, ◌++◌, [], OnOk, IfOk};
ghost use Rattle.x_trees.specs.Gloss.{lifted_name};
ghost use Rattle.x_trees.specs.View.{view_type, view_body, view_declaration, view_declarations, view_arms};
ghost use Rattle.x_trees.specs.View.{view_default, view_definition};
ghost use Rattle.x_pieces.specs.InlineTypes.{types_of_type, types_inside, types_of_declaration};
ghost use Rattle.x_pieces.specs.InlineTypes.{types_of_declarations, types_of_arms};
ghost use Rattle.x_pieces.specs.InlineTypes.{types_of_default, types_of};
ghost use Rattle.x_pieces.specs.Views.{view_types};

use std::alloc::Global;
use std::borrow::CowSlice;
use x_text::NoMemory;
use x_trees::{Arm, Body, DataType, Declaration, Definition, UnionBody, lifted_name};

/// A type that has a body: its own name, or the lifted name of an inline type.
#[derive(Drop)]
pub struct NamedBody<'d> {
    pub name: CowSlice<'d, u8>,
    pub body: &'d Body,
}

/// The types that a definition writes, each behind those that stand inside it.
pub fn types_of<'d>(
    alloc: Global,
    definition: &'d Definition,
) -> Result<Vec<NamedBody<'d>>, NoMemory>
    ensures { IfOk result (λ types. view_types types.items ≡ types_of (view_definition definition.now)) }
{
    let mut types = Vec::new(alloc);
    match definition {
        Definition::Typedef(declaration) => {
            add_declared(alloc, &mut types, declaration.name(), declaration)?;
        }
        Definition::NewType { name, body } => {
            add_inside(alloc, &mut types, name, body)?;
            types.push(NamedBody {
                name: CowSlice::Borrowed(name),
                body,
            })?;
        }
        Definition::Const { .. } | Definition::Program { .. } => {}
    }
    Ok(types)
}

/// Adds the types inside the body of the type that `around` names.
#[cycle(types)]
fn add_inside<'d>(
    alloc: Global,
    types: &mut Vec<NamedBody<'d>>,
    around: &[u8],
    body: &'d Body,
) -> Result<(), NoMemory>
    ensures { OnOk result (view_types types.new.items ≡ view_types types.old.items
        ++ types_inside around.now (view_body body.now)) }
{
    match body {
        Body::Enum(_) => Ok(()),
        Body::Struct(declarations) => add_fields(alloc, types, around, declarations),
        Body::Union(body) => {
            let body: &UnionBody = body;
            add_declared(alloc, types, around, &body.discriminant)?;
            add_arms(alloc, types, around, &body.arms)?;
            add_default(alloc, types, around, &body.default)
        }
    }
}

/// Adds the types inside a declaration, and its own, if it is an inline one.
#[cycle(types)]
fn add_declared<'d>(
    alloc: Global,
    types: &mut Vec<NamedBody<'d>>,
    around: &[u8],
    declaration: &'d Declaration,
) -> Result<(), NoMemory>
    ensures { OnOk result (view_types types.new.items ≡ view_types types.old.items
        ++ types_of_declaration around.now (view_declaration declaration.now)) }
{
    match declaration {
        Declaration::Of { data, name, .. } => match data {
            DataType::Inline(body) => {
                let lifted = lifted_name(alloc, around, name)?;
                add_inside(alloc, types, &lifted, body)?;
                types.push(NamedBody {
                    name: CowSlice::Owned(lifted),
                    body,
                })?;
                Ok(())
            }
            _ => Ok(()),
        },
        _ => Ok(()),
    }
}

#[cycle(types)]
fn add_fields<'d>(
    alloc: Global,
    types: &mut Vec<NamedBody<'d>>,
    around: &[u8],
    declarations: &'d [Declaration],
) -> Result<(), NoMemory>
    ensures { OnOk result (view_types types.new.items ≡ view_types types.old.items
        ++ types_of_declarations around.now (view_declarations declarations.now)) }
{
    for declaration in declarations {
        add_declared(alloc, types, around, declaration)?;
    }
    Ok(())
}

#[cycle(types)]
fn add_arms<'d>(
    alloc: Global,
    types: &mut Vec<NamedBody<'d>>,
    around: &[u8],
    arms: &'d [Arm],
) -> Result<(), NoMemory>
    ensures { OnOk result (view_types types.new.items ≡ view_types types.old.items
        ++ types_of_arms around.now (view_arms arms.now)) }
{
    for arm in arms {
        add_declared(alloc, types, around, &arm.declaration)?;
    }
    Ok(())
}

#[cycle(types)]
fn add_default<'d>(
    alloc: Global,
    types: &mut Vec<NamedBody<'d>>,
    around: &[u8],
    default: &'d Option<Declaration>,
) -> Result<(), NoMemory>
    ensures { OnOk result (view_types types.new.items ≡ view_types types.old.items
        ++ types_of_default around.now (view_default default.now)) }
{
    match default {
        Some(declaration) => add_declared(alloc, types, around, declaration),
        None => Ok(()),
    }
}
