//! How long the lexing of a file takes, and then the relexing of one byte typed at several places of it.

use crate::followed::{Followed, Step};
use crate::read::read;
use std::io;
use std::time::Instant;
use x_lex::lex;
use x_text::{MAX_TEXT, Meter, Source};

/// How often a byte is typed at one place to find the time of one.
const ROUNDS: u64 = 1000;

/// The bytes of a line of the files that `bench/relex` makes, and the place of the digit in it that is typed
/// over.
const LINE: usize = 26;

const DIGIT: usize = 17;

/// Types one byte, and prints how long relexing took.
fn type_once(rt: &HostRuntime, followed: &mut Followed, what: &str, at: usize) -> io::Result<()> {
    let Some(step) = followed.type_over(rt, at)? else {
        return Ok(());
    };
    let Step {
        nanoseconds,
        lexed,
        moved,
    } = step;
    println!(rt; "{what}: {nanoseconds} ns, lexed {lexed}, moved {moved}")
}

/// Types a byte again and again at one place, and prints how long one took.
fn type_often(rt: &HostRuntime, followed: &mut Followed, what: &str, at: usize) -> io::Result<()> {
    let mut total = 0u64;
    for _ in 0..ROUNDS {
        if let Some(step) = followed.type_over(rt, at)? {
            total = total.saturating_add(step.nanoseconds);
        }
    }
    let one = total / ROUNDS;
    println!(rt; "{what}: {one} ns each of {ROUNDS}")
}

/// Times the file, but no more of it than a text can have.
pub(crate) fn time_relexing(rt: &HostRuntime, file: &str) -> io::Result<()> {
    let bytes = read(rt, file, MAX_TEXT as u64)?;
    let Ok(text) = Source::from_bytes(rt.alloc(), &bytes) else {
        return println!(rt; "out of memory");
    };
    let start = Instant::now(rt)?;
    let Ok(tokens) = lex(rt.alloc(), &text, &mut Meter::new()) else {
        return println!(rt; "out of memory");
    };
    let nanoseconds = start.elapsed(rt)?.as_nanos();
    let count = tokens.len();
    let middle = bytes.len() / LINE / 2 * LINE + DIGIT;
    println!(rt; "lex: {nanoseconds} ns, {count} tokens")?;
    let mut followed = Followed::new(text, tokens);
    type_once(rt, &mut followed, "middle, first", middle)?;
    type_often(rt, &mut followed, "middle, again", middle)?;
    type_once(rt, &mut followed, "a line on", middle + LINE)?;
    type_once(rt, &mut followed, "start", DIGIT)?;
    type_often(rt, &mut followed, "start, again", DIGIT)
}
