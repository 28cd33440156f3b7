//! Texts that stay open with nothing before them, and what they answer.

ghost use Rattle.std.specs.Prelude.{IfOk};
ghost use Rattle.x_prelude.specs.Followed.{IsOver};

use crate::asserts::expect_eq;
use std::alloc::Global;
use std::process::Abort;
use x_explain::KnownFiles;
use x_hash::HashKey;
use x_prelude::{FollowedText, FromC};
use x_script::{EngineFault, Outcome, ScriptFile, run_script};
use x_text::{MemSink, MemTap, Sink, Tap, TextFault};

/// Opens a text with no file before it, which takes no name from C.
pub fn opened(alloc: Global, bytes: &[u8]) -> Result<FollowedText, TextFault>
    ensures { IfOk result IsOver }
{
    let from_c = FromC {
        types: false,
        foreign: false,
    };
    let hash_key = HashKey::of_bytes(bytes);
    FollowedText::open(alloc, b"", from_c, hash_key, b"t", bytes)
}

/// Carries out a script over a text, which is that of the file `t.x`.
pub fn run(
    alloc: Global,
    text: &mut FollowedText,
    tap: &mut impl Tap,
    sink: &mut impl Sink,
) -> Result<Outcome, EngineFault>
    requires { IsOver text.now }
    ensures { IsOver text.new }
{
    run_behind(&KnownFiles::none(alloc), alloc, text, tap, sink)
}

/// The same, where known files declare their names at these places.
fn run_behind(
    known: &KnownFiles,
    alloc: Global,
    text: &mut FollowedText,
    tap: &mut impl Tap,
    sink: &mut impl Sink,
) -> Result<Outcome, EngineFault>
    requires { IsOver text.now }
    ensures { IsOver text.new }
{
    let file = ScriptFile {
        name: "t.x",
        known,
        is_plain: true,
    };
    run_script(alloc, text, &file, tap, sink)
}

/// Writes what a text answers to these lines, and tells how many bytes that is.
pub fn write_answers(
    alloc: Global,
    text: &mut FollowedText,
    asked: &[u8],
    buffer: &mut [u8],
) -> Result<usize, EngineFault>
    requires { IsOver text.now }
    ensures { IsOver text.new }
{
    let mut sink = MemSink::new(buffer, 1 << 20, 1 << 20);
    let mut tap = MemTap::new(asked, 512, usize::MAX);
    run(alloc, text, &mut tap, &mut sink)?;
    Ok(sink.bytes().len())
}

/// Checks what a text answers to these lines.
pub fn expect_answers(
    rt: &impl Abort,
    alloc: Global,
    text: &mut FollowedText,
    asked: &[u8],
    wanted: &[u8],
) -> Result<(), EngineFault>
    requires { IsOver text.now }
    ensures { IsOver text.new }
{
    let mut buffer = [0u8; 32768];
    let length = write_answers(alloc, text, asked, &mut buffer)?;
    expect_eq(rt, buffer.get(..length), Some(wanted));
    Ok(())
}
