//! Scripts.
use crate::answers::{opened, run};
use crate::asserts::expect_eq;
use crate::edits::expect_text;
use std::alloc::Global;
use std::io::{self, Write};
use std::process::Abort;
use std::test::Fail;
use x_script::EngineFault;
use x_text::{MemTap, Out, Sink, Tap};

/// Runs a script on the text `int s`, which an edit makes `ints`.
fn run_on_ints(
    rt: &impl Abort,
    alloc: Global,
    tap: &mut impl Tap,
    sink: &mut impl Sink,
) -> Result<Option<EngineFault>, Fail> {
    let mut text = opened(alloc, b"int s")?;
    let fault = run(alloc, &mut text, tap, sink).err();
    expect_text(rt, &text.session, b"ints");
    Ok(fault)
}

/// A writer that takes all and can't pass it on.
#[derive(Drop)]
struct Blocked;

impl Write for Blocked {
    fn write(&mut self, bytes: &[u8]) -> io::Result<usize> {
        Ok(bytes.len())
    }

    fn flush(&mut self) -> io::Result<()> {
        Err(io::Error::other("the disk is gone"))
    }
}

#[test]
fn each_answer_is_passed_on(rt: HostRuntime) -> Result<(), Fail> {
    let mut tap = MemTap::new(b"edit 3 4\nedit 0 1\n", 64, usize::MAX);
    let mut out = Out::new(Blocked);
    let fault = run_on_ints(&rt, rt.alloc(), &mut tap, &mut out)?;
    expect_eq(&rt, fault, Some(EngineFault::Write { written: 5 }));
    Ok(())
}
