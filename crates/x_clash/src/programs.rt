//! The names that programs, their versions and their procedures have in C.

ghost use Rattle.std.specs.Prelude.{◌≡◌, ◌∷◌, [], ◌++◌, map, codes, OnOk, IfOk};
ghost use Rattle.x_trees.specs.View.{view_argument, view_procedure, view_version};
ghost use Rattle.x_outline.specs.Parts.{view_members, view_name_at};
ghost use Rattle.x_pieces.specs.Procedures.{function_name, in_decimal, lower, lower_byte};
ghost use Rattle.x_pieces.specs.Table.{table_name};
ghost use Rattle.std.specs.Fmt.{decimal};
ghost use Rattle.x_clash.specs.Given.{Member, argument_names, given, group_names, procedure_names};
ghost use Rattle.x_clash.specs.Given.{procedures_names, version_names, versions_names};
ghost use Rattle.x_clash.specs.Parts.{first_names, first_word};
ghost use Rattle.x_clash.specs.Views.{view_all};

use crate::given::{Given, Sort, add_made, add_spelled, others};
use itoa::Buffer;
use std::alloc::Global;
use x_numbers::number_value;
use x_outline::{Members, NameAt};
use x_text::NoMemory;
use x_trees::{Argument, Procedure, Version};

/// A letter in lower case.
fn lower_byte(byte: u8) -> u8
    ensures { result ≡ lower_byte byte }
{
    match byte {
        b'A'..=b'Z' => byte + 32,
        _ => byte,
    }
}

/// Adds a name in lower case to a text.
fn add_lower(text: &mut Vec<u8>, name: &[u8]) -> Result<(), NoMemory>
    ensures { OnOk result (text.new.items ≡ text.old.items ++ lower name.now) }
{
    for byte in name {
        text.push(lower_byte(*byte))?;
    }
    Ok(())
}

/// Adds a number in decimal, however it is spelled, to a text.
fn add_decimal(text: &mut Vec<u8>, number: &[u8]) -> Result<(), NoMemory>
    ensures { OnOk result (text.new.items ≡ text.old.items ++ in_decimal number.now) }
{
    if let Some(value) = number_value(number) {
        let mut buffer = Buffer::new();
        text.extend_from_slice(buffer.format(value).as_bytes())?;
    }
    Ok(())
}

/// A name in lower case, `_`, and the number of a version in decimal.
fn numbered(alloc: Global, name: &[u8], version: &Version) -> Result<Vec<u8>, NoMemory>
    ensures { IfOk result (λ text. text.items
        ≡ lower name.now ++ codes "_" ++ in_decimal (view_version version.now).number) }
{
    let mut text = Vec::new(alloc);
    add_lower(&mut text, name)?;
    text.push(b'_')?;
    add_decimal(&mut text, &version.number)?;
    Ok(text)
}

/// The word of the first of the names.
fn first_word(names: &[NameAt]) -> usize
    ensures { result ≡ first_word (map view_name_at names.now) }
{
    match names.first() {
        Some(first) => first.word,
        None => 0,
    }
}

/// Adds the member that is the argument of this number.
fn add_argument<'d>(
    alloc: Global,
    list: &mut Vec<Given<'d>>,
    word: usize,
    number: u128,
) -> Result<(), NoMemory>
    ensures { OnOk result (view_all list.new.items ≡ view_all list.old.items
        ++ given (codes "arg" ++ decimal number) word Member ∷ []) }
{
    let mut buffer = Buffer::new();
    let digits = buffer.format(number).as_bytes();
    add_made(alloc, list, &[b"arg", digits], word, Sort::Member)
}

/// Adds the members that are several arguments, but for the first.
fn add_arguments<'d>(
    alloc: Global,
    list: &mut Vec<Given<'d>>,
    word: usize,
    arguments: &[Argument],
) -> Result<(), NoMemory>
    ensures { OnOk result (view_all list.new.items ≡ view_all list.old.items
        ++ argument_names word 2 (map view_argument arguments.now)) }
{
    for (index, _) in arguments.iter().enumerate() {
        add_argument(alloc, list, word, index as u128 + 2)?;
    }
    Ok(())
}

/// Adds the struct of several arguments, whose function has this name.
fn add_group<'d>(
    alloc: Global,
    list: &mut Vec<Given<'d>>,
    function: &[u8],
    word: usize,
    arguments: &[Argument],
) -> Result<(), NoMemory>
    ensures { OnOk result (view_all list.new.items ≡ view_all list.old.items
        ++ group_names (function.now ++ codes "_argument") word (map view_argument arguments.now)) }
{
    if arguments.is_empty() {
        return Ok(());
    }
    add_made(alloc, list, &[function, b"_argument"], word, Sort::Tagged)?;
    add_made(
        alloc,
        list,
        &[b"xdr_", function, b"_argument"],
        word,
        Sort::Function,
    )?;
    add_spelled(list, b"arg1", word, Sort::Member)?;
    add_arguments(alloc, list, word, arguments)
}

/// Adds what a procedure gives, whose name is this word.
fn add_procedure<'d>(
    alloc: Global,
    list: &mut Vec<Given<'d>>,
    version: &Version,
    procedure: &'d Procedure,
    word: usize,
) -> Result<(), NoMemory>
    ensures { OnOk result (view_all list.new.items ≡ view_all list.old.items
        ++ procedure_names (view_version version.now) (view_procedure procedure.now) word) }
{
    let function = numbered(alloc, &procedure.name, version)?;
    add_spelled(list, &procedure.name, word, Sort::Macro(&procedure.number))?;
    add_made(alloc, list, &[&function], word, Sort::Function)?;
    add_made(alloc, list, &[&function, b"_svc"], word, Sort::Function)?;
    add_group(alloc, list, &function, word, &procedure.others)
}

/// Adds what the procedures of a version give, which have these names.
fn add_procedures<'d>(
    alloc: Global,
    list: &mut Vec<Given<'d>>,
    version: &'d Version,
    names: &[NameAt<'d>],
) -> Result<(), NoMemory>
    ensures { OnOk result (view_all list.new.items ≡ view_all list.old.items
        ++ procedures_names (view_version version.now) (map view_name_at names.now)
        (view_version version.now).procedures) }
{
    let mut names = names;
    for procedure in &version.procedures {
        add_procedure(alloc, list, version, procedure, first_word(names))?;
        names = others(names);
    }
    Ok(())
}

/// Adds what the procedures of a version give, which have the names of the first of these groups.
fn add_first_group<'d>(
    alloc: Global,
    list: &mut Vec<Given<'d>>,
    version: &'d Version,
    groups: &[Members<'d>],
) -> Result<(), NoMemory>
    ensures { OnOk result (view_all list.new.items ≡ view_all list.old.items
        ++ procedures_names (view_version version.now) (first_names (map view_members groups.now))
        (view_version version.now).procedures) }
{
    match groups.first() {
        Some(group) => add_procedures(alloc, list, version, &group.names),
        None => add_procedures(alloc, list, version, &[]),
    }
}

/// Adds what a version of a program gives, but for its procedures, where its name is this word.
fn add_version<'d>(
    alloc: Global,
    list: &mut Vec<Given<'d>>,
    program: &[u8],
    version: &'d Version,
    word: usize,
) -> Result<(), NoMemory>
    ensures { OnOk result (view_all list.new.items ≡ view_all list.old.items
        ++ version_names program.now (view_version version.now) word) }
{
    let table = numbered(alloc, program, version)?;
    add_spelled(list, &version.name, word, Sort::Macro(&version.number))?;
    add_made(alloc, list, &[&table, b"_table"], word, Sort::Plain)?;
    add_made(alloc, list, &[&table, b"_nproc"], word, Sort::Plain)
}

/// Adds what the versions of a program give, which have these names, and the procedures of each, which have
/// these.
pub fn add_versions<'d>(
    alloc: Global,
    list: &mut Vec<Given<'d>>,
    program: &[u8],
    names: &[NameAt<'d>],
    groups: &[Members<'d>],
    versions: &'d [Version],
) -> Result<(), NoMemory>
    ensures { OnOk result (view_all list.new.items ≡ view_all list.old.items
        ++ versions_names program.now (map view_name_at names.now) (map view_members groups.now)
        (map view_version versions.now)) }
{
    let mut names = names;
    let mut groups = groups;
    for version in versions {
        add_version(alloc, list, program, version, first_word(names))?;
        add_first_group(alloc, list, version, groups)?;
        names = others(names);
        groups = others(groups);
    }
    Ok(())
}
