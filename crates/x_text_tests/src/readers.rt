//! Readers that fail.
use crate::asserts::expect_eq;
use std::io::{self, Read};
use x_text::{Broken, In, Tap};

/// What a reader of these tests does at one of its calls.
#[derive(Clone, Copy)]
enum Turn {
    Give(&'static [u8]),
    Fail,
}

/// A reader that does as its turns say, and is then at its end.
#[derive(Drop)]
struct Turns<'t> {
    turns: &'t [Turn],
}

impl Read for Turns<'_> {
    fn read(&mut self, buffer: &mut [u8]) -> io::Result<usize> {
        let Some((turn, others)) = self.turns.split_first() else {
            return Ok(0);
        };
        self.turns = others;
        match *turn {
            Turn::Give(bytes) => {
                let count = bytes.len().min(buffer.len());
                buffer[..count].copy_from_slice(&bytes[..count]);
                Ok(count)
            }
            Turn::Fail => Err(io::Error::other("the disk is gone")),
        }
    }
}

#[test]
fn a_failed_read_breaks_a_tap(rt: HostRuntime) {
    let turns = [Turn::Give(b"ab"), Turn::Fail, Turn::Give(b"c")];
    let mut tap = In::new(Turns { turns: &turns });
    let mut buffer = [0u8; 4];
    expect_eq(&rt, tap.take(&mut buffer), Ok(2));
    expect_eq(&rt, &buffer, b"ab\0\0");
    expect_eq(&rt, tap.take(&mut buffer), Err(Broken));
    // The reader would give a byte.
    expect_eq(&rt, tap.take(&mut buffer), Err(Broken));
}
