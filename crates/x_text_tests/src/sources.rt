//! Texts and edits, and their wants of memory.
use crate::asserts::expect_eq;
use refusals::{ALL, begin, end};
use std::process::Abort;
use std::test::Fail;
use x_text::{Edit, MAX_TEXT, Source, TextBuffers, TextFault};

#[test]
fn sweep_from_bytes(rt: HostRuntime) -> Result<(), Fail> {
    match Source::from_bytes(rt.alloc(), b"a\nb") {
        Ok(source) => {
            expect_eq(&rt, source.bytes(), b"a\nb".as_slice());
            println!(rt; "nothing was refused")?;
        }
        Err(fault) => expect_eq(&rt, fault, TextFault::NoMemory),
    }
    Ok(())
}

fn edit(start: usize, end: usize, insert: &[u8]) -> Edit<'_> {
    Edit { start, end, insert }
}

/// Edits that answer the same whether or not there is memory, and then one that needs some.
fn edit_with_little_memory(rt: &impl Abort, source: &mut Source) -> Result<(), TextFault> {
    let bad = source.replace(&edit(2, 1, b"x"));
    expect_eq(rt, bad, Err(TextFault::BadRange));
    let answer = source.replace(&edit(1, 2, b"0123456789"));
    let expected: &[u8] = if answer.is_ok() {
        b"a0123456789c"
    } else {
        b"abc"
    };
    expect_eq(rt, source.bytes(), expected);
    answer
}

#[test]
fn sweep_replace(rt: HostRuntime) -> Result<(), Fail> {
    let answer = Source::from_bytes(rt.alloc(), b"abc").and_then(
        |mut source| edit_with_little_memory(&rt, &mut source),
    );
    match answer {
        Ok(()) => println!(rt; "nothing was refused")?,
        Err(fault) => expect_eq(&rt, fault, TextFault::NoMemory),
    }
    Ok(())
}

/// Checks that the edits of a text are refused that lie outside of it or make it too long, and that it stays.
fn expect_refused(rt: &impl Abort, source: &mut Source, long: &[u8]) {
    expect_eq(
        rt,
        source.replace(&edit(2, 1, b"x")),
        Err(TextFault::BadRange),
    );
    expect_eq(
        rt,
        source.replace(&edit(0, 4, b"x")),
        Err(TextFault::BadRange),
    );
    expect_eq(
        rt,
        source.replace(&edit(0, 1, long)),
        Err(TextFault::TooLarge),
    );
    expect_eq(rt, source.bytes(), b"a\nb".as_slice());
    expect_eq(
        rt,
        (source.line_col(1), source.line_col(2)),
        ((1, 2), (2, 1)),
    );
}

/// What takes no memory of a text: an empty one, an edit that is refused, lines and columns.
#[test]
fn bare_sources(rt: HostRuntime) -> Result<(), Fail> {
    let mut source = Source::from_bytes(rt.alloc(), b"a\nb")?;
    let long = vec![in rt.alloc(); b'x'; MAX_TEXT]?;
    begin(rt.alloc(), ALL)?;
    let empty = Source::new(rt.alloc());
    expect_eq(&rt, empty.bytes(), b"".as_slice());
    expect_eq(&rt, empty.line_col(0), (1, 1));
    expect_refused(&rt, &mut source, &long);
    assert!(rt; !end(rt.alloc()));
    Ok(())
}

/// Two edits in turn, the second of which comes first in the text.
fn turn_with_little_memory(rt: &impl Abort, buffers: &mut TextBuffers) -> Result<(), TextFault> {
    let bad = buffers.prepare(&edit(2, 1, b"x"));
    expect_eq(rt, bad, Err(TextFault::BadRange));
    let first = buffers.prepare(&edit(2, 3, b"0123456789"));
    expect_eq(rt, buffers.text().bytes(), b"abcd".as_slice());
    first?;
    buffers.turn();
    let answer = buffers.prepare(&edit(1, 1, b"-"));
    // What a refusal leaves is enough to go on from.
    if answer.is_err() {
        buffers.prepare(&edit(1, 1, b"-"))?;
    }
    expect_eq(rt, buffers.text().bytes(), b"ab0123456789d".as_slice());
    expect_eq(rt, buffers.ready().bytes(), b"a-b0123456789d".as_slice());
    answer
}

#[test]
fn sweep_prepare(rt: HostRuntime) -> Result<(), Fail> {
    let alloc = rt.alloc();
    let answer = Source::from_bytes(alloc, b"abcd").and_then(|source| {
        let mut buffers = TextBuffers::of(alloc, source);
        turn_with_little_memory(&rt, &mut buffers)
    });
    match answer {
        Ok(()) => println!(rt; "nothing was refused")?,
        Err(fault) => expect_eq(&rt, fault, TextFault::NoMemory),
    }
    Ok(())
}
