//! Reads a value.
ghost use Rattle.std.specs.Prelude.{◌≡◌, ◌⊎◌, ◌∷◌, [], length, IfErr, IfOk};
ghost use Rattle.x_schema.specs.Schema.{Schema, IsTypeId, IsRoot};
ghost use Rattle.x_value.specs.Dumps.{root_label, IsEncoding, IsReadFault, IsShown};
ghost use Rattle.x_value.specs.Entries.{label_of, IsCalled};

mod heads;
mod steps;
mod task;
mod turns;
mod words;

use crate::fault::{ReadCode, ReadFault};
use crate::nodes::{CompactLabel, Dump};
pub use heads::MOST_LINKS;
use std::alloc::Global;
use steps::counted_from;
use task::{Spot, Task};
use turns::{carry_out, put};
use x_schema::{Root, Schema, TypeId};

/// For how many tasks there is room at first.
const FIRST_TASKS: usize = 16;

/// For how many nodes there is room at first: most messages have no more.
const FIRST_ENTRIES: usize = 64;

/// What the root of a value is called.
fn root_label(root: Root) -> CompactLabel
    ensures label { (s : Schema) → label_of s result ≡ root_label s root }
    ensures known { (s : Schema) → IsRoot s root → IsCalled (length s.names) result }
{
    match root {
        Root::Type(name) => CompactLabel::Name(name),
        Root::Arguments => CompactLabel::Arguments,
        Root::Results => CompactLabel::Results,
    }
}

/// The nodes of the value of this type whose encoding the bytes are (RFC 4506, section 4), or the place and
/// the reason of their refusal.
pub fn dump<'a>(
    alloc: Global,
    schema: &'a Schema,
    id: TypeId,
    bytes: &'a [u8],
) -> Result<Dump<'a>, ReadFault>
    requires { IsTypeId schema.now id }
    ensures ok { IfOk result (λ d. IsShown schema.now id bytes.now d) }
    ensures err { IfErr result (λ e. IsReadFault schema.now id bytes.now e.at e.code) }
    ensures only { IfErr result (λ e. e.code ≡ ReadCode.NoMemory ⊎ (IsEncoding schema.now id bytes.now → ⊥)) }
{
    let form = id.form();
    let _form = schema.form_at(form);
    let spot = Spot {
        label: root_label(id.root()),
        level: 0,
        links: 0,
    };
    let mut stack = Vec::with_capacity(alloc, FIRST_TASKS)?;
    let mut entries = Vec::with_capacity(alloc, FIRST_ENTRIES)?;
    put(&mut stack, Task::One(form, spot))?;
    let mut rest = bytes;
    while let Some(task) = stack.pop() {
        rest = match carry_out(schema, bytes, &mut stack, &mut entries, task, rest) {
            Ok(rest) => rest,
            Err(fault) => return Err(counted_from(fault, bytes.len() - rest.len())),
        };
    }
    if rest.is_empty() {
        Ok(Dump::of(schema, bytes, entries))
    } else {
        Err(ReadFault {
            at: bytes.len() - rest.len(),
            code: ReadCode::Trailing,
        })
    }
}
