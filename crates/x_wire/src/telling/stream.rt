//! What is printed of a recorded stream.
ghost use Rattle.std.specs.Prelude.{◌≡◌, ◌<◌, ◌≤◌, ℕ, List, length, IfOk, OnErr, MatchOption};
ghost use Rattle.std.specs.Io.KnownBytes.{Keeps};
ghost use Rattle.x_streams.specs.Engines.{NamesCause};
ghost use Rattle.x_streams.specs.Streams.{FailsForGood};
ghost use Rattle.x_wire.specs.Dumpers.{IsAt, TellsTurn};
ghost use Rattle.x_wire.specs.Framers.{IsOpen};
ghost use Rattle.x_wire.specs.Limits.{most_block};
ghost use Rattle.x_wire.specs.MessageTexts.{Told};
ghost use Rattle.x_wire.specs.StreamTexts.{DumpsStream};

use super::dumper::Dumper;
use std::alloc::Global;
use x_schema::Schema;
use x_text::{Broken, EngineFault, NoMemory, Outcome, Pen, Sink, Tap};

/// How many bytes are read at a time.
const BLOCK: usize = 65_536;

/// What becomes of a stream with a block.
#[derive(Clone, Copy)]
enum Turn {
    /// It goes on.
    GoesOn,
    /// It ended so.
    Ended(Outcome),
    /// Memory ran out.
    NoMemory,
}

/// Writes the text of each message of a recorded stream, and that of the stream's fault where it has one (RFC
/// 5531, sections 8 to 11). Then, and where a message has a fault, the outcome is [`Outcome::Refused`]. The
/// stream is read in blocks, and all that is kept of it is the open record and the last call of each xid.
/// What is told of a block is written before the next one is read.
///
/// # Errors
///
/// The tap failed: the texts of all records that are whole in what was read are written. Memory ran out: the
/// whole texts of some messages are, and of all that were whole before the last block was read. The sink
/// failed.
pub fn dump_stream<R: Tap, S: Sink>(
    alloc: Global,
    schema: &Schema,
    tap: &mut R,
    sink: &mut S,
) -> Result<Outcome, EngineFault>
    ensures dumps { MatchOption (R.state tap.old).bytes (Unit {0})
        (λ stream. DumpsStream schema.now stream (R.state tap.new).bytes (S.state sink.old)
        (S.state sink.new) result) }
    ensures cause { NamesCause result (R.state tap.old).failed (R.state tap.new).failed
        (S.state sink.old).failed (S.state sink.new).failed }
{
    let Ok(mut block) = Vec::from_elem(alloc, 0, BLOCK) else {
        return Err(EngineFault::NoMemory { written: 0 });
    };
    let mut dumper = Dumper::new(alloc);
    let mut pen = Pen::new();
    for _ in 0..u64::MAX {
        let Ok(turn) = tell_block(alloc, schema, &mut dumper, &mut block, tap, &mut pen, sink)
        else {
            return Err(EngineFault::Read {
                written: pen.written(),
            });
        };
        pen.flush(sink);
        let written = pen.written();
        if pen.has_stopped() {
            return Err(EngineFault::Write { written });
        }
        match turn {
            Turn::GoesOn => {}
            Turn::Ended(outcome) => return Ok(outcome),
            Turn::NoMemory => return Err(EngineFault::NoMemory { written }),
        }
    }
    // No tap comes to so many blocks.
    Err(EngineFault::NoMemory {
        written: pen.written(),
    })
}

/// Reads a block and tells the messages that become whole by it; where the stream ends, how.
fn tell_block<R: Tap, S: Sink>(
    alloc: Global,
    schema: &Schema,
    dumper: &mut Dumper,
    block: &mut [u8],
    tap: &mut R,
    pen: &mut Pen,
    sink: &mut S,
) -> Result<Turn, Broken>
    requires is_open { IsOpen dumper.old.framer.phase }
    requires some { 0 < length block.old }
    requires few { length block.old ≤ most_block }
    ensures is_open { IsOpen dumper.new.framer.phase }
    ensures told { IfOk result (λ turn. (read : List ℕ) (t : Told) → IsAt schema.now read t dumper.old →
        TellsTurn schema.now read t (R.state tap.old).bytes (R.state tap.new).bytes turn dumper.new
        pen.old (S.state sink.old) pen.new (S.state sink.new)) }
    ensures fails { FailsForGood (R.state tap.old) (R.state tap.new) result }
    ensures kept { OnErr result (Keeps (R.state tap.old).bytes (R.state tap.new).bytes) }
    ensures same { OnErr result ((pen.new ≡ pen.old) × (sink.new ≡ sink.old)) }
{
    let count = tap.take(block)?;
    let Ok(goes_on) = dumper.take(alloc, schema, &block[..count], pen, sink) else {
        return Ok(Turn::NoMemory);
    };
    if goes_on && count > 0 {
        return Ok(Turn::GoesOn);
    }
    Ok(Turn::Ended(dumper.tell_end(pen, sink)))
}
