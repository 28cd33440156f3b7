//! What is printed of one message.
ghost use Rattle.std.specs.Prelude.{◌≡◌, false, OnOk};
ghost use Rattle.x_wire.specs.StreamTexts.{DumpsMessage};

use super::teller::Teller;
use std::alloc::Global;
use x_schema::Schema;
use x_text::{EngineFault, Outcome, Pen, Sink, WriteFault};

/// Writes the text of the message that the bytes are, as message 1 of a stream (RFC 5531, sections 8 and 9).
///
/// # Errors
/// The sink failed, or memory ran out before anything was written.
pub fn dump_message<S: Sink>(
    alloc: Global,
    schema: &Schema,
    bytes: &[u8],
    sink: &mut S,
) -> Result<Outcome, EngineFault>
    ensures dumps { DumpsMessage schema.now bytes.now (S.state sink.old) (S.state sink.new) result }
    ensures working { OnOk result ((S.state sink.new).failed ≡ false) }
{
    let mut pen = Pen::new();
    let mut teller = Teller::new(alloc);
    let Ok(refused) = teller.tell(alloc, schema, bytes, &mut pen, sink) else {
        return Err(EngineFault::NoMemory { written: 0 });
    };
    match pen.finish(sink) {
        Ok(()) => Ok(Outcome::of(refused)),
        Err(WriteFault { written }) => Err(EngineFault::Write { written }),
    }
}
