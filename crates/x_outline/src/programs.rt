//! The versions of a program and the procedures of each.

ghost use Rattle.std.specs.Prelude.{◌≡◌, ◌<◌, ◌+◌, ◌^◌, [], ◌∷◌, ◌++◌, length, map, OnOk, IfOk};
ghost use Rattle.x_trees.specs.Spell.{spell_type, spell_argument, spell_passed, spell_others, spell_versions};
ghost use Rattle.x_trees.specs.View.{view_type, view_argument, view_passed, view_procedure, view_version};
ghost use Rattle.x_trees.specs.View.{view_definition};
ghost use Rattle.x_outline.specs.Bodies.{members, procedure_lists, versions_from};
ghost use Rattle.x_trees.specs.Spell.{IsShort};
ghost use Rattle.x_outline.specs.MemberWalks.{Skips, AddsName, AddsNumber, AddsProcedure, AddsProcedures};
ghost use Rattle.x_outline.specs.MemberWalks.{AddsVersion};
ghost use Rattle.x_outline.specs.MemberWalks.{place, start};
ghost use Rattle.x_outline.specs.Parts.{view_members};

use crate::bodies::BodyWalk;
use crate::parts::{Members, NameAt, NumberAt};
use std::alloc::Global;
use x_text::NoMemory;
use x_trees::{Argument, DataType, Definition, Procedure, Version};

impl<'d> Members<'d> {
    fn new(alloc: Global) -> Members<'d>
        ensures names { result.names.items ≡ [] }
        ensures numbers { result.numbers.items ≡ [] }
    {
        Members {
            names: Vec::new(alloc),
            numbers: Vec::new(alloc),
        }
    }

    fn name(&mut self, word: usize, name: &'d [u8]) -> Result<(), NoMemory>
        ensures { OnOk result (AddsName word self.old self.new name.now) }
    {
        self.names.push(NameAt { word, name })?;
        Ok(())
    }

    fn number(&mut self, word: usize, text: &'d [u8]) -> Result<(), NoMemory>
        ensures { OnOk result (AddsNumber word self.old self.new text.now) }
    {
        self.numbers.push(NumberAt { word, text })?;
        Ok(())
    }
}

/// Goes over the type of an argument or a result.
fn pass_type<'d>(alloc: Global, walk: &mut BodyWalk<'d>, tree: &'d DataType) -> Result<(), NoMemory>
    ensures { OnOk result (Skips walk.old walk.new (length (spell_type (view_type tree.now)))) }
{
    match tree {
        DataType::Basic(basic) => {
            walk.skip(basic.word_count());
            Ok(())
        }
        DataType::Named(_) => {
            walk.skip(1);
            Ok(())
        }
        DataType::Tagged { .. } => {
            walk.skip(2);
            Ok(())
        }
        DataType::Inline(body) => {
            walk.skip(1);
            walk.pass(alloc, body)
        }
    }
}

/// Goes over an argument or a result.
fn pass_argument<'d>(
    alloc: Global,
    walk: &mut BodyWalk<'d>,
    argument: &'d Argument,
) -> Result<(), NoMemory>
    ensures { OnOk result (Skips walk.old walk.new (length (spell_argument (view_argument argument.now)))) }
{
    match argument {
        Argument::String => {
            walk.skip(1);
            Ok(())
        }
        Argument::Of(tree) => pass_type(alloc, walk, tree),
    }
}

/// Goes over an argument or a result, or `void`.
fn pass<'d>(
    alloc: Global,
    walk: &mut BodyWalk<'d>,
    passed: &'d Option<Argument>,
) -> Result<(), NoMemory>
    ensures { OnOk result (Skips walk.old walk.new (length (spell_passed (view_passed passed.now)))) }
{
    match passed {
        Some(argument) => pass_argument(alloc, walk, argument),
        None => {
            walk.skip(1);
            Ok(())
        }
    }
}

/// Goes over arguments, each behind a comma.
fn pass_others<'d>(
    alloc: Global,
    walk: &mut BodyWalk<'d>,
    others: &'d [Argument],
) -> Result<(), NoMemory>
    ensures { OnOk result (Skips walk.old walk.new (length (spell_others (map view_argument others.now)))) }
{
    for argument in others {
        walk.skip(1);
        pass_argument(alloc, walk, argument)?;
    }
    Ok(())
}

fn add_procedure<'d>(
    alloc: Global,
    walk: &mut BodyWalk<'d>,
    procedure: &'d Procedure,
    members: &mut Members<'d>,
) -> Result<(), NoMemory>
    ensures { OnOk result
        (AddsProcedure (place walk.old.word [] members.old) (place walk.new.word [] members.new)
        (view_procedure procedure.now)) }
{
    pass(alloc, walk, &procedure.result)?;
    members.name(walk.word, &procedure.name)?;
    walk.skip(2);
    pass(alloc, walk, &procedure.first)?;
    pass_others(alloc, walk, &procedure.others)?;
    walk.skip(2);
    members.number(walk.word, &procedure.number)?;
    walk.skip(2);
    Ok(())
}

fn procedures<'d>(
    alloc: Global,
    walk: &mut BodyWalk<'d>,
    list: &'d [Procedure],
) -> Result<Members<'d>, NoMemory>
    ensures { IfOk result (λ found. AddsProcedures (start walk.old.word) (place walk.new.word [] found)
        (map view_procedure list.now)) }
{
    let mut members = Members::new(alloc);
    for procedure in list {
        add_procedure(alloc, walk, procedure, &mut members)?;
    }
    Ok(members)
}

/// Adds a version to the others, and its procedures to those of each.
fn add_version<'d>(
    alloc: Global,
    walk: &mut BodyWalk<'d>,
    version: &'d Version,
    groups: &mut Vec<Members<'d>>,
    members: &mut Members<'d>,
) -> Result<(), NoMemory>
    ensures { OnOk result (AddsVersion (place walk.old.word groups.old.items members.old)
        (place walk.new.word groups.new.items members.new) (view_version version.now)) }
{
    walk.skip(1);
    members.name(walk.word, &version.name)?;
    walk.skip(2);
    groups.push(procedures(alloc, walk, &version.procedures)?)?;
    walk.skip(2);
    members.number(walk.word, &version.number)?;
    walk.skip(2);
    Ok(())
}

/// The procedures of each version, and then the versions.
fn versions(alloc: Global, list: &[Version]) -> Result<Vec<Members<'_>>, NoMemory>
    ensures { IfOk result (λ found. 3 + length (spell_versions (map view_version list.now)) < 2 ^ 64
        → map view_members found.items ≡ procedure_lists 3 (map view_version list.now)
        ++ versions_from 3 (map view_version list.now) ∷ []) }
{
    let mut walk = BodyWalk {
        list: Vec::new(alloc),
        word: 3,
    };
    let mut groups = Vec::new(alloc);
    let mut members = Members::new(alloc);
    for version in list {
        add_version(alloc, &mut walk, version, &mut groups, &mut members)?;
    }
    groups.push(members)?;
    Ok(groups)
}

/// The procedures of each version of a program, and then its versions.
pub fn members(alloc: Global, definition: &Definition) -> Result<Vec<Members<'_>>, NoMemory>
    ensures { IfOk result (λ found. IsShort (view_definition definition.now)
        → map view_members found.items ≡ members (view_definition definition.now)) }
{
    match definition {
        Definition::Program { versions: list, .. } => versions(alloc, list),
        _ => Ok(Vec::new(alloc)),
    }
}
