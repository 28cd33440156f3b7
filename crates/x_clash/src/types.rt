//! The names that types and enumerators have in C.

ghost use Rattle.std.specs.Prelude.{◌≡◌, ◌∷◌, [], ◌++◌, map, OnOk};
ghost use Rattle.x_trees.specs.Collected.{view_name};
ghost use Rattle.x_trees.specs.View.{view_definition};
ghost use Rattle.x_outline.specs.BodyWalks.{view_body_at, AreFilled};
ghost use Rattle.x_clash.specs.Given.{bodies_after, body_names, declared_names, given, routine, type_names};
ghost use Rattle.x_clash.specs.Given.{typedef_names};
ghost use Rattle.x_clash.specs.Parts.{has_body};
ghost use Rattle.x_clash.specs.Views.{view_all, view_sort};

use crate::given::{Given, Sort, add, add_made, kept, others};
use crate::members::{add_length, add_members};
use std::alloc::Global;
use x_outline::{BodyAt, Outline};
use x_text::NoMemory;
use x_trees::{DeclaredName, Definition, NameKind};

/// Whether a name is that of a type with a body.
fn has_body(kind: NameKind) -> bool
    ensures { result ≡ has_body kind }
{
    matches!(kind, NameKind::Enum | NameKind::Struct | NameKind::Union)
}

/// Adds the routine of a type of this name.
fn add_routine<'d>(
    alloc: Global,
    list: &mut Vec<Given<'d>>,
    name: &[u8],
    word: usize,
) -> Result<(), NoMemory>
    ensures { OnOk result
        (view_all list.new.items ≡ view_all list.old.items ++ routine name.now word ∷ []) }
{
    add_made(alloc, list, &[b"xdr_", name], word, Sort::Function)
}

/// Adds a type of this sort, and its routine.
fn add_type<'d>(
    alloc: Global,
    list: &mut Vec<Given<'d>>,
    declared: &DeclaredName<'d>,
    sort: Sort<'d>,
) -> Result<(), NoMemory>
    ensures { OnOk result (view_all list.new.items ≡ view_all list.old.items
        ++ given (view_name declared.now).name declared.now.word (view_sort sort.entry)
        ∷ routine (view_name declared.now).name declared.now.word ∷ []) }
{
    add(list, kept(alloc, &declared.name)?, declared.word, sort)?;
    add_routine(alloc, list, &declared.name, declared.word)
}

/// Adds what a name that is declared gives: a type has a routine, too.
fn add_declared<'d>(
    alloc: Global,
    list: &mut Vec<Given<'d>>,
    declared: &DeclaredName<'d>,
) -> Result<(), NoMemory>
    ensures { OnOk result (view_all list.new.items
        ≡ view_all list.old.items ++ declared_names (view_name declared.now)) }
{
    match declared.kind {
        NameKind::Constant => add(
            list,
            kept(alloc, &declared.name)?,
            declared.word,
            Sort::Plain,
        ),
        NameKind::Typedef => add_type(alloc, list, declared, Sort::Plain),
        NameKind::Program => Ok(()),
        NameKind::Enum | NameKind::Struct | NameKind::Union => {
            add_type(alloc, list, declared, Sort::Tagged)
        }
    }
}

/// Adds the members of the struct that a `typedef` of many elements is.
fn add_typedef<'d>(
    alloc: Global,
    list: &mut Vec<Given<'d>>,
    definition: &Definition,
    declared: &DeclaredName<'d>,
) -> Result<(), NoMemory>
    ensures { OnOk result (view_all list.new.items ≡ view_all list.old.items
        ++ typedef_names (view_definition definition.now) (view_name declared.now)) }
{
    match definition {
        Definition::Typedef(declaration) if declared.kind == NameKind::Typedef => {
            add_length(alloc, list, &declared.name, declared.word, declaration)
        }
        _ => Ok(()),
    }
}

/// Adds the members of a type whose body is the first of these, if the name is that of one with a body.
fn add_body<'d>(
    alloc: Global,
    list: &mut Vec<Given<'d>>,
    declared: &DeclaredName<'d>,
    bodies: &[BodyAt<'d>],
) -> Result<(), NoMemory>
    ensures { OnOk result (AreFilled bodies.now → view_all list.new.items ≡ view_all list.old.items
        ++ body_names (view_name declared.now) (map view_body_at bodies.now)) }
{
    if !has_body(declared.kind) {
        return Ok(());
    }
    match bodies.first() {
        Some(body) => add_members(alloc, list, &declared.name, body),
        None => Ok(()),
    }
}

/// The bodies that are left after a name.
fn bodies_after<'b, 'd>(bodies: &'b [BodyAt<'d>], declared: &DeclaredName<'d>) -> &'b [BodyAt<'d>]
    ensures left { map view_body_at result.now
        ≡ bodies_after (view_name declared.now) (map view_body_at bodies.now) }
    ensures filled { AreFilled bodies.now → AreFilled result.now }
{
    if !has_body(declared.kind) {
        return bodies;
    }
    others(bodies)
}

/// Adds the names that the definition of an outline gives, which is no constant and no program.
pub fn add_types<'d>(
    alloc: Global,
    list: &mut Vec<Given<'d>>,
    outline: &Outline<'d>,
) -> Result<(), NoMemory>
    ensures { OnOk result (AreFilled outline.now.bodies.items → view_all list.new.items
        ≡ view_all list.old.items ++ type_names (view_definition outline.now.definition.now)
        (map view_name outline.now.declared.items) (map view_body_at outline.now.bodies.items)) }
{
    let mut bodies = outline.bodies.as_slice();
    for declared in &outline.declared {
        add_declared(alloc, list, declared)?;
        add_typedef(alloc, list, outline.definition, declared)?;
        add_body(alloc, list, declared, bodies)?;
        bodies = bodies_after(bodies, declared);
    }
    Ok(())
}
