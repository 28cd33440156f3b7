//! Writers that fail: what they took is the first bytes of what was to be written, and so many are told.

ghost use Rattle.x_prelude.specs.Followed.{IsOver};

use crate::answers::{opened, run};
use crate::asserts::expect_eq;
use crate::edits::{ROWS, Row, expect_text};
use refusals::{ALL, begin, end};
use std::alloc::Global;
use std::io::{self, Write};
use std::process::Abort;
use std::test::Fail;
use x_prelude::FollowedText;
use x_script::EngineFault;
use x_session::{Session, Which};
use x_text::{MemSink, MemTap, Out, WriteFault};

/// A writer that takes nothing.
#[derive(Drop)]
struct Stuck;

impl Write for Stuck {
    fn write(&mut self, _bytes: &[u8]) -> io::Result<usize> {
        Ok(0)
    }

    fn flush(&mut self) -> io::Result<()> {
        Ok(())
    }
}

/// Runs the script into a sink that takes a byte a call and fails behind so many. The text is as the line
/// left it whose answer is not whole.
fn stop_behind(
    rt: &impl Abort,
    alloc: Global,
    row: &Row,
    script: &[u8],
    answers: &[u8],
    count: usize,
) -> Result<(), Fail> {
    let mut text = opened(alloc, row.text)?;
    stop_at(rt, alloc, &mut text, row, script, answers, count);
    Ok(())
}

fn stop_at(
    rt: &impl Abort,
    alloc: Global,
    text: &mut FollowedText,
    row: &Row,
    script: &[u8],
    answers: &[u8],
    count: usize,
)
    requires { IsOver text.now }
{
    let mut buffer = [0u8; 2048];
    let mut sink = MemSink::new(&mut buffer, 1, count);
    let mut tap = MemTap::new(script, 64, usize::MAX);
    let outcome = run(alloc, text, &mut tap, &mut sink);
    let written = count as u64;
    expect_eq(rt, outcome, Err(EngineFault::Write { written }));
    expect_eq(rt, sink.bytes().len(), count);
    assert!(rt; answers.starts_with(sink.bytes()));
    let (lines, _) = row.whole_answers(count);
    expect_text(rt, &text.session, row.text_behind(lines.saturating_add(1)));
}

#[test]
fn a_script_stops_at_the_first_byte_that_is_not_taken(rt: HostRuntime) -> Result<(), Fail> {
    for row in &ROWS {
        stop_everywhere(&rt, rt.alloc(), row)?;
    }
    Ok(())
}

fn stop_everywhere(rt: &impl Abort, alloc: Global, row: &Row) -> Result<(), Fail> {
    let script = row.script(alloc, 0)?;
    let answers = row.answers(alloc, 0)?;
    for count in 0..answers.len() {
        stop_behind(rt, alloc, row, &script, &answers, count)?;
    }
    open_and_stick(rt, alloc, row, &script)
}

fn open_and_stick(rt: &impl Abort, alloc: Global, row: &Row, script: &[u8]) -> Result<(), Fail> {
    let mut text = opened(alloc, row.text)?;
    stick(rt, alloc, &mut text, script);
    expect_text(rt, &text.session, row.text);
    Ok(())
}

/// Nothing of the first answer is taken.
fn stick(rt: &impl Abort, alloc: Global, text: &mut FollowedText, script: &[u8])
    requires { IsOver text.now }
{
    let mut tap = MemTap::new(script, 64, usize::MAX);
    let outcome = run(alloc, text, &mut tap, &mut Out::new(Stuck));
    expect_eq(rt, outcome, Err(EngineFault::Write { written: 0 }));
}

const TEXTS: [Which; 4] = [Which::Header, Which::Routines, Which::Stubs, Which::Table];

/// The bytes of a generated text, of four million at most.
fn whole_text(alloc: Global, session: &Session, which: Which) -> Result<Vec<u8>, Fail> {
    let mut room = vec![in alloc; 0u8; 4_000_000]?;
    let mut sink = MemSink::new(&mut room, usize::MAX, usize::MAX);
    session.write_text(which, &mut sink)?;
    Ok(Vec::from_slice(alloc, sink.bytes())?)
}

/// Writes a text into sinks that fail behind so many of its bytes: at each place of a short one, and at a
/// thousand of a long one. The sink takes as many bytes a call as there are from one place to the next.
fn cut_text(rt: &impl Abort, alloc: Global, session: &Session, which: Which) -> Result<(), Fail> {
    let text = whole_text(alloc, session, which)?;
    let step = (text.len() / 1000).max(1);
    let mut room = vec![in alloc; 0u8; 4_000_000]?;
    let mut count = 0usize;
    for _ in 0..text.len() {
        if count >= text.len() {
            break;
        }
        let mut sink = MemSink::new(&mut room, step, count);
        let answer = session.write_text(which, &mut sink);
        let written = count as u64;
        expect_eq(rt, answer, Err(WriteFault { written }));
        expect_eq(rt, sink.bytes().len(), count);
        // All of a short text, the end of what is written of a long one.
        let from = count.saturating_sub(4096);
        assert!(rt; sink.bytes().get(from..) == text.get(from..count));
        count = count.saturating_add(step);
    }
    let answer = session.write_text(which, &mut Out::new(Stuck));
    expect_eq(rt, answer, Err(WriteFault { written: 0 }));
    Ok(())
}

/// Writes the four texts whole with every allocation refused: none takes memory.
#[test]
fn bare_texts(rt: HostRuntime) -> Result<(), Fail> {
    let session = Session::open(rt.alloc(), b"t", TEXT_OF_ALL)?;
    let mut room = vec![in rt.alloc(); 0u8; 65_536]?;
    for which in TEXTS {
        let text = whole_text(rt.alloc(), &session, which)?;
        let mut sink = MemSink::new(&mut room, 512, 65_536);
        begin(rt.alloc(), ALL)?;
        let answer = session.write_text(which, &mut sink);
        assert!(rt; !end(rt.alloc()) && answer.is_ok() && text.len() > 100);
        assert!(rt; sink.bytes() == text.as_slice());
    }
    Ok(())
}

/// A text with something in each of the four generated texts.
const TEXT_OF_ALL: &[u8] =
    b"struct s { int a; }; program P { version V { s F(s) = 1; } = 1; } = 3;";

/// Runs the script from a tap that gives a byte a call and fails behind so many. What is written is the
/// answers of the lines that are whole in them, and the text is as these left it.
fn read_behind(
    rt: &impl Abort,
    alloc: Global,
    row: &Row,
    script: &[u8],
    answers: &[u8],
    count: usize,
) -> Result<(), Fail> {
    let mut text = opened(alloc, row.text)?;
    read_to(rt, alloc, &mut text, row, script, answers, count);
    Ok(())
}

fn read_to(
    rt: &impl Abort,
    alloc: Global,
    text: &mut FollowedText,
    row: &Row,
    script: &[u8],
    answers: &[u8],
    count: usize,
)
    requires { IsOver text.now }
{
    let mut buffer = [0u8; 2048];
    let mut sink = MemSink::new(&mut buffer, 2048, 2048);
    let mut tap = MemTap::new(script, 1, count);
    let outcome = run(alloc, text, &mut tap, &mut sink);
    let (lines, length) = row.answered(count);
    let written = length as u64;
    expect_eq(rt, outcome, Err(EngineFault::Read { written }));
    assert!(rt; answers.get(..length) == Some(sink.bytes()));
    expect_text(rt, &text.session, row.text_behind(lines));
}

fn read_everywhere(rt: &impl Abort, alloc: Global, row: &Row) -> Result<(), Fail> {
    let script = row.script(alloc, 0)?;
    let answers = row.answers(alloc, 0)?;
    for count in 0..=script.len() {
        read_behind(rt, alloc, row, &script, &answers, count)?;
    }
    Ok(())
}

#[test]
fn a_script_stops_at_the_first_byte_that_is_not_read(rt: HostRuntime) -> Result<(), Fail> {
    for row in &ROWS {
        read_everywhere(&rt, rt.alloc(), row)?;
    }
    Ok(())
}

/// A line that passes through, of 500 bytes.
const PASSED: &[u8] = &[b'%'; 499];

/// A text of a million bytes and more: two thousand structs, a long line behind each.
fn long_text(alloc: Global) -> Result<Vec<u8>, Fail> {
    let mut text = Vec::new(alloc);
    for number in 0..2000u32 {
        let item = format!(in alloc; "struct s{number} {{ int a; opaque b<{number}>; }};\n")?;
        text.extend_from_slice(item.as_bytes())?;
        text.extend_from_slice(PASSED)?;
        text.push(b'\n')?;
    }
    Ok(text)
}

#[test]
fn a_text_stops_at_the_first_byte_that_is_not_taken(rt: HostRuntime) -> Result<(), Fail> {
    open_and_cut(&rt, rt.alloc(), ROWS[2].text)?;
    let long = long_text(rt.alloc())?;
    assert!(rt; long.len() > 1_000_000);
    open_and_cut(&rt, rt.alloc(), &long)
}

fn open_and_cut(rt: &impl Abort, alloc: Global, text: &[u8]) -> Result<(), Fail> {
    let session = Session::open(alloc, b"t", text)?;
    cut_texts(rt, alloc, &session)
}

fn cut_texts(rt: &impl Abort, alloc: Global, session: &Session) -> Result<(), Fail> {
    expect_eq(rt, session.fault_count(), 0);
    for which in TEXTS {
        cut_text(rt, alloc, session, which)?;
    }
    Ok(())
}
