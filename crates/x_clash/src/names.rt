//! The names that a definition gives to C.

ghost use Rattle.std.specs.Prelude.{◌≡◌, ◌∷◌, [], ◌++◌, map, OnOk, IfOk};
ghost use Rattle.x_trees.specs.View.{view_definition, view_value, view_version};
ghost use Rattle.x_trees.specs.Spell.{IsShort};
ghost use Rattle.x_outline.specs.Bodies.{members, procedure_lists, versions_from};
ghost use Rattle.x_pieces.specs.CTypes.{spelled};
ghost use Rattle.x_clash.specs.Given.{given, names_given, versions_names, Macro};
ghost use Rattle.x_clash.specs.Views.{view_all};

use crate::given::{Given, Sort, add_spelled};
use crate::programs::add_versions;
use crate::types::add_types;
use std::alloc::Global;
use x_outline::{Outline, members};
use x_text::NoMemory;
use x_trees::{Definition, Value, Version};

/// How a value is spelled.
fn spelled(value: &Value) -> &[u8]
    ensures { result.now ≡ spelled (view_value value.now) }
{
    match value {
        Value::Number(text) => text,
        Value::Named(text) => text,
    }
}

/// The names that a definition gives to C.
///
/// # Errors
///
/// [`NoMemory`] where a list or a name could not be kept.
pub fn names_given<'d>(
    alloc: Global,
    definition: &'d Definition,
) -> Result<Vec<Given<'d>>, NoMemory>
    ensures { IfOk result (λ names. IsShort (view_definition definition.now)
        → view_all names.items ≡ names_given (view_definition definition.now)) }
{
    let mut list = Vec::new(alloc);
    match definition {
        Definition::Const { name, value } => {
            add_spelled(&mut list, name, 1, Sort::Macro(spelled(value)))?;
        }
        Definition::Program {
            name,
            versions,
            number,
        } => {
            add_spelled(&mut list, name, 1, Sort::Macro(number))?;
            add_program(alloc, &mut list, definition, name, versions)?;
        }
        Definition::Typedef(_) | Definition::NewType { .. } => {
            add_types(alloc, &mut list, &Outline::of(alloc, definition)?)?;
        }
    }
    Ok(list)
}

/// Adds what the versions of a program of this name give.
fn add_program<'d>(
    alloc: Global,
    list: &mut Vec<Given<'d>>,
    program: &'d Definition,
    name: &[u8],
    versions: &'d [Version],
) -> Result<(), NoMemory>
    ensures { OnOk result (IsShort (view_definition program.now)
        → members (view_definition program.now) ≡ procedure_lists 3 (map view_version versions.now)
        ++ versions_from 3 (map view_version versions.now) ∷ []
        → view_all list.new.items ≡ view_all list.old.items
        ++ versions_names name.now (versions_from 3 (map view_version versions.now)).names
        (procedure_lists 3 (map view_version versions.now)) (map view_version versions.now)) }
{
    let members = members(alloc, program)?;
    match members.split_last() {
        Some((of_versions, of_procedures)) => {
            add_versions(
                alloc,
                list,
                name,
                &of_versions.names,
                of_procedures,
                versions,
            )
        }
        None => Ok(()),
    }
}
