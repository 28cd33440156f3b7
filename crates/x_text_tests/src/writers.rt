//! Writers that fail.
use crate::asserts::expect_eq;
use std::io::{self, Write};
use std::process::Abort;
use x_text::{Broken, MemSink, Out, Pen, Sink, WriteFault};

/// What a writer of these tests does at one of its calls.
#[derive(Clone, Copy)]
enum Turn {
    Take(usize),
    Fail,
}

/// A writer that does as its turns say, and then takes all.
#[derive(Drop)]
struct Turns<'t> {
    turns: &'t [Turn],
}

impl Turns<'_> {
    fn next(&mut self) -> Turn {
        match self.turns.split_first() {
            Some((turn, others)) => {
                self.turns = others;
                *turn
            }
            None => Turn::Take(usize::MAX),
        }
    }
}

impl Write for Turns<'_> {
    fn write(&mut self, bytes: &[u8]) -> io::Result<usize> {
        match self.next() {
            Turn::Take(count) => Ok(count.min(bytes.len())),
            Turn::Fail => Err(io::Error::other("the disk is full")),
        }
    }

    fn flush(&mut self) -> io::Result<()> {
        match self.next() {
            Turn::Take(_) => Ok(()),
            Turn::Fail => Err(io::Error::other("the disk is gone")),
        }
    }
}

/// Checks that the sink over a writer takes two bytes and is then broken, though the writer would take more.
fn expect_broken(rt: &impl Abort, turns: &[Turn]) {
    let mut out = Out::new(Turns { turns });
    expect_eq(rt, out.put(b"abc"), Ok(2));
    expect_eq(rt, out.put(b"c"), Err(Broken));
    expect_eq(rt, out.put(b"c"), Err(Broken));
    expect_eq(rt, out.flush(), Err(Broken));
}

#[test]
fn a_write_that_fails_or_takes_nothing_breaks_a_sink(rt: HostRuntime) {
    expect_broken(&rt, &[Turn::Take(2), Turn::Fail]);
    expect_broken(&rt, &[Turn::Take(2), Turn::Take(0)]);
}

#[test]
fn a_failed_flush_breaks_a_sink(rt: HostRuntime) {
    let turns = [Turn::Take(3), Turn::Fail];
    let mut out = Out::new(Turns { turns: &turns });
    expect_eq(&rt, out.put(b"abc"), Ok(3));
    expect_eq(&rt, out.flush(), Err(Broken));
    // The writer would flush, and take the byte.
    expect_eq(&rt, out.flush(), Err(Broken));
    expect_eq(&rt, out.put(b"d"), Err(Broken));
}

/// The length of a text that a pen can't hold back as a whole.
const LONG: usize = 20_000;

/// Writes the long text in pieces of seven bytes to a sink with this room, and checks that it has taken what
/// fits.
fn write_in_pieces(rt: &impl Abort, room: &mut [u8], expected: Result<(), WriteFault>) {
    let text = [b'a'; LONG];
    let mut sink = MemSink::new(room, 3000, LONG);
    let mut pen = Pen::new();
    for piece in text.chunks(7) {
        pen.add(piece, &mut sink);
    }
    expect_eq(rt, pen.finish(&mut sink), expected);
    let left = sink.bytes().iter().filter(|byte| **byte != b'a').count();
    expect_eq(rt, left, 0);
}

#[test]
fn a_pen_tells_how_much_a_sink_took(rt: HostRuntime) {
    write_in_pieces(&rt, &mut [0u8; LONG], Ok(()));
    let fault = WriteFault { written: 9000 };
    write_in_pieces(&rt, &mut [0u8; 9000], Err(fault));
}
