//! What is shown of a file: a recorded stream, one message or one value.

ghost use Rattle.std.specs.Prelude.{ℕ, List};
ghost use Rattle.rpcx.specs.Course.{course};
ghost use Rattle.rpcx.specs.Dumping.{type_asked, Ends, Goes};

use crate::rpcdump::halt::Halt;
use crate::rpcdump::input::read_all;
use std::alloc::Global;
use x_args::{DumpArgs, Mode};
use x_text::{Sink, Tap};
use x_wire::{Outcome, Schema, dump_message, dump_stream, dump_value};

/// Shows the bytes of a file, and has the output pass on what was shown.
pub fn show<I: Tap, O: Sink>(
    alloc: Global,
    args: &DumpArgs,
    mode: Mode,
    schema: &Schema,
    input: &mut I,
    out: &mut O,
) -> Result<Outcome, Halt>
    ensures { Ends mode (type_asked args.now) schema.now
        (course (I.state input.old) (I.state input.new) (O.state out.old) (O.state out.new)) result }
{
    let outcome = show_by_mode(alloc, args, mode, schema, input, out)?;
    match out.flush() {
        Ok(()) => Ok(outcome),
        Err(_) => Err(Halt::Unwritten),
    }
}

/// Shows the bytes of a file by the mode.
fn show_by_mode<I: Tap, O: Sink>(
    alloc: Global,
    args: &DumpArgs,
    mode: Mode,
    schema: &Schema,
    input: &mut I,
    out: &mut O,
) -> Result<Outcome, Halt>
    ensures { Goes mode (type_asked args.now) schema.now
        (course (I.state input.old) (I.state input.new) (O.state out.old) (O.state out.new)) result }
{
    match mode {
        Mode::Stream => show_stream(alloc, schema, input, out),
        Mode::Message => show_message(alloc, schema, input, out),
        Mode::Value => show_value(alloc, args.type_name.unwrap_or(""), schema, input, out),
    }
}

/// Shows a recorded stream.
fn show_stream<I: Tap, O: Sink>(
    alloc: Global,
    schema: &Schema,
    input: &mut I,
    out: &mut O,
) -> Result<Outcome, Halt>
    ensures { (name : List ℕ) → Goes Mode.Stream name schema.now
        (course (I.state input.old) (I.state input.new) (O.state out.old) (O.state out.new)) result }
{
    match dump_stream(alloc, schema, input, out) {
        Ok(outcome) => Ok(outcome),
        Err(fault) => Err(Halt::Ended(fault)),
    }
}

/// Shows one message.
fn show_message<I: Tap, O: Sink>(
    alloc: Global,
    schema: &Schema,
    input: &mut I,
    out: &mut O,
) -> Result<Outcome, Halt>
    ensures { (name : List ℕ) → Goes Mode.Message name schema.now
        (course (I.state input.old) (I.state input.new) (O.state out.old) (O.state out.new)) result }
{
    let bytes = read_all(alloc, input)?;
    match dump_message(alloc, schema, &bytes, out) {
        Ok(outcome) => Ok(outcome),
        Err(fault) => Err(Halt::Ended(fault)),
    }
}

/// Shows one value of the type of this name.
fn show_value<I: Tap, O: Sink>(
    alloc: Global,
    type_name: &str,
    schema: &Schema,
    input: &mut I,
    out: &mut O,
) -> Result<Outcome, Halt>
    ensures { Goes Mode.Value type_name.now schema.now
        (course (I.state input.old) (I.state input.new) (O.state out.old) (O.state out.new)) result }
{
    let Some(id) = schema.type_named(type_name.as_bytes()) else {
        return Err(Halt::NoType);
    };
    let bytes = read_all(alloc, input)?;
    match dump_value(alloc, schema, id, &bytes, out) {
        Ok(outcome) => Ok(outcome),
        Err(fault) => Err(Halt::Ended(fault)),
    }
}
