//! A message and a value that are shown alone, with every allocation refused in turn.

ghost use Rattle.std.specs.Prelude.{◌≤◌};

use crate::asserts::expect_eq;
use crate::schemas::nfs2_schema;
use crate::streams::{CALL_TEXT, NULL_CALL, READDIR, READDIR_CALL_TEXT, READDIR_RESULTS};
use refusals::{MOST_TURNS, begin, end};
use std::alloc::Global;
use std::process::Abort;
use std::test::Fail;
use x_text::MemSink;
use x_wire::{EngineFault, Outcome, Schema, dump_message, dump_value};

/// What is shown: a message, or a value of the type of this name.
#[derive(Clone, Copy)]
enum Shown<'a> {
    Message,
    Value(&'a [u8]),
}

/// Bytes, and what is told of them.
#[derive(Clone, Copy)]
struct Row<'a> {
    shown: Shown<'a>,
    bytes: &'a [u8],
    text: &'a [u8],
}

/// Shows the bytes.
fn show(
    rt: &impl Abort,
    alloc: Global,
    schema: &Schema,
    row: Row,
    sink: &mut MemSink,
) -> Result<Outcome, EngineFault> {
    let Shown::Value(name) = row.shown else {
        return dump_message(alloc, schema, row.bytes, sink);
    };
    let Some(id) = schema.type_named(name) else {
        panic!(rt; "the type is there");
    };
    dump_value(alloc, schema, id, row.bytes, sink)
}

/// Shows the bytes in a turn: whole, or nothing of them.
fn show_once(
    rt: &impl Abort,
    alloc: Global,
    schema: &Schema,
    row: Row,
    turn: usize,
) -> Result<bool, Fail>
    requires { turn ≤ 20000 }
{
    let mut told = [0u8; 1024];
    let mut sink = MemSink::new(&mut told, 1024, 1024);
    begin(alloc, turn)?;
    let result = show(rt, alloc, schema, row, &mut sink);
    let refused = end(alloc);
    if result == Err(EngineFault::NoMemory { written: 0 }) {
        assert!(rt; refused && sink.bytes().is_empty());
        expect_eq(
            rt,
            show(rt, alloc, schema, row, &mut sink),
            Ok(Outcome::Clean),
        );
    } else {
        expect_eq(rt, result, Ok(Outcome::Clean));
    }
    expect_eq(rt, sink.bytes(), row.text);
    Ok(refused)
}

/// Shows the bytes with one allocation refused after another, and after a refusal with memory.
fn show_in_turns(rt: &impl Abort, alloc: Global, schema: &Schema, row: Row) -> Result<usize, Fail> {
    for turn in 0..MOST_TURNS {
        if !show_once(rt, alloc, schema, row, turn)? {
            return Ok(turn);
        }
    }
    panic!(rt; "showing never ends")
}

/// A call without arguments, one with them, and the results of one.
#[test]
fn refused_alone(rt: HostRuntime) -> Result<(), Fail> {
    let schema = nfs2_schema(rt.alloc())?;
    let rows = [
        (Shown::Message, &NULL_CALL[4..44], CALL_TEXT),
        (Shown::Message, &READDIR[4..84], READDIR_CALL_TEXT),
        (
            Shown::Value(b"readdirres"),
            &READDIR[120..],
            READDIR_RESULTS,
        ),
    ];
    for (shown, bytes, text) in rows {
        let row = Row { shown, bytes, text };
        let turns = show_in_turns(&rt, rt.alloc(), &schema, row)?;
        println!(rt; "turns: {turns}")?;
    }
    Ok(())
}
