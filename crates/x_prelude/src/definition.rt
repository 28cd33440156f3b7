//! The definition that is made of a name.

ghost use Rattle.std.specs.Prelude.{◌≡◌, ◌++◌, [], if◌then◌else◌, map, None, Some, OnOk};
ghost use Rattle.std.specs.List.{concat};
ghost use Rattle.x_trees.specs.declared.names.mention.Use.{Use};
ghost use Rattle.x_trees.specs.declared.names.mention.Use.TheVariants as uses;
ghost use Rattle.x_trees.specs.declared.trees.declaration.Tag.TheVariants as tags;
ghost use Rattle.x_prelude.specs.Prelude.{constant_number, foreign_text, is_type};

use crate::c_types::c_type;
use itoa::Buffer;
use x_text::NoMemory;
use x_trees::{Mention, Tag, Use};

/// Which names of C a text may use without declaring them.
#[derive(Clone, Copy, Debug, PartialEq, Eq)]
pub struct FromC {
    /// C's own types that have an XDR routine of their name: each is what that routine reads and writes.
    pub types: bool,
    /// Any other name: a type of unknown layout, or a constant of unknown number.
    pub foreign: bool,
}

/// Adds the definition of the name with this number, by its first mention and the first keyword in front of
/// it, unless it is taken as a type of C.
pub(crate) fn add_definition(
    text: &mut Vec<u8>,
    from: FromC,
    number: usize,
    mention: &Mention,
    tag: Option<Tag>,
) -> Result<(), NoMemory>
    ensures { OnOk result (text.new.items ≡ text.old.items
        ++ (if is_type from mention.now.name.now then []
        else foreign_text number mention.now.name.now mention.now.usage tag)) }
{
    if is_type(from, mention.name) {
        return Ok(());
    }
    match tag {
        Some(tag) => add_keyed(text, number, mention.name, tag),
        None => add_plain(text, number, mention),
    }
}

/// Whether a name is taken as a type of C.
pub(crate) fn is_type(from: FromC, name: &[u8]) -> bool
    ensures { result ≡ is_type from name.now }
{
    from.types && c_type(name).is_some()
}

/// Adds the definition of a name without a keyword: of a constant, or of a type.
fn add_plain(text: &mut Vec<u8>, number: usize, mention: &Mention) -> Result<(), NoMemory>
    ensures { OnOk result (text.new.items
        ≡ text.old.items ++ foreign_text number mention.now.name.now mention.now.usage None) }
{
    match mention.usage {
        Use::Value => add_constant(text, number, mention.name),
        Use::ByValue | Use::Link => add(text, &[b"typedef int ", mention.name, b";\n"]),
    }
}

/// Adds the definition of a constant.
fn add_constant(text: &mut Vec<u8>, number: usize, name: &[u8]) -> Result<(), NoMemory>
    ensures { OnOk result (text.new.items ≡ text.old.items ++ foreign_text number name.now uses.Value None) }
{
    let mut buffer = Buffer::new();
    let digits = buffer.format(constant_number(number)).as_bytes();
    add(text, &[b"const ", name, b" = ", digits, b";\n"])
}

/// Adds the definition of a type, by the keyword in front of its name.
fn add_keyed(text: &mut Vec<u8>, number: usize, name: &[u8], tag: Tag) -> Result<(), NoMemory>
    ensures { OnOk result ((usage : Use)
        → text.new.items ≡ text.old.items ++ foreign_text number name.now usage (Some tag)) }
{
    match tag {
        Tag::Struct => add(text, &[b"struct ", name, b" { opaque unknown<>; };\n"]),
        Tag::Union => add(
            text,
            &[
                b"union ",
                name,
                b" switch (int known) { case 0: void; default: void; };\n",
            ],
        ),
        Tag::Enum => add_enum(text, number, name),
    }
}

/// Adds the definition of an enum, whose one name has a number of its own.
fn add_enum(text: &mut Vec<u8>, number: usize, name: &[u8]) -> Result<(), NoMemory>
    ensures { OnOk result ((usage : Use)
        → text.new.items ≡ text.old.items ++ foreign_text number name.now usage (Some tags.Enum)) }
{
    let mut buffer = Buffer::new();
    let digits = buffer.format(constant_number(number)).as_bytes();
    add(
        text,
        &[b"enum ", name, b" { ", name, b"__ = ", digits, b" };\n"],
    )
}

/// The number of a constant, by that of its name.
fn constant_number(number: usize) -> u128
    ensures { result ≡ constant_number number }
{
    1_073_741_824 + 256 * number as u128
}

/// Adds the parts, one behind another.
pub(crate) fn add(text: &mut Vec<u8>, parts: &[&[u8]]) -> Result<(), NoMemory>
    ensures { OnOk result (text.new.items ≡ text.old.items ++ concat (map (λ p. p.now) parts.now)) }
{
    for part in parts {
        text.extend_from_slice(part)?;
    }
    Ok(())
}
