//! One value of a type, as text.

ghost use Rattle.std.specs.Prelude.{◌≡◌, false, ℕ, List, IfOk, OnOk, OnErr};
ghost use Rattle.x_streams.specs.Writing.{Adds};
ghost use Rattle.x_schema.specs.Schema.{IsTypeId};
ghost use Rattle.x_value.specs.ValueTexts.{IsValueText, WritesValue};

use crate::fault::ReadCode;
use crate::reading::dump;
use std::alloc::Global;
use x_schema::{Schema, TypeId};
use x_text::{EngineFault, NoMemory, Outcome, Pen, Sink, WriteFault};

/// Writes the nodes of the value whose encoding the bytes are, a line each; or one line with the fault of
/// bytes that are no encoding of the type (RFC 4506), and then the outcome is [`Outcome::Refused`]. The id is
/// one of this schema's.
///
/// # Errors
/// The sink failed, or memory ran out before anything was written.
pub fn dump_value<S: Sink>(
    alloc: Global,
    schema: &Schema,
    id: TypeId,
    bytes: &[u8],
    sink: &mut S,
) -> Result<Outcome, EngineFault>
    requires { IsTypeId schema.now id }
    ensures written { WritesValue schema.now id bytes.now (S.state sink.old) (S.state sink.new) result }
    ensures working { OnOk result ((S.state sink.new).failed ≡ false) }
{
    let mut pen = Pen::new();
    let outcome = match add_text(alloc, schema, id, bytes, &mut pen, sink) {
        Ok(outcome) => outcome,
        Err(NoMemory) => return Err(EngineFault::NoMemory { written: 0 }),
    };
    match pen.finish(sink) {
        Ok(()) => Ok(outcome),
        Err(WriteFault { written }) => Err(EngineFault::Write { written }),
    }
}

/// Adds the lines of the value, or of the fault. Without memory nothing is added.
fn add_text<S: Sink>(
    alloc: Global,
    schema: &Schema,
    id: TypeId,
    bytes: &[u8],
    pen: &mut Pen,
    sink: &mut S,
) -> Result<Outcome, NoMemory>
    requires { IsTypeId schema.now id }
    ensures added { IfOk result (λ outcome. (text : List ℕ) × IsValueText schema.now id bytes.now text outcome
        × Adds pen.old (S.state sink.old) pen.new (S.state sink.new) text) }
    ensures same { OnErr result ((pen.new ≡ pen.old) × (sink.new ≡ sink.old)) }
{
    match dump(alloc, schema, id, bytes) {
        Ok(dump) => {
            dump.add_lines(pen, sink);
            Ok(Outcome::Clean)
        }
        Err(fault) => {
            if fault.code == ReadCode::NoMemory {
                return Err(NoMemory);
            }
            fault.add_line(pen, sink);
            Ok(Outcome::Refused)
        }
    }
}
