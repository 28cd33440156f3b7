//! Command lines.
use crate::asserts::expect_eq;
use crate::before::nothing;
use clap::error::ErrorKind;
use rpcx::{GenArgs, RPCGEN, Status, answer_words, gen_args};
use std::test::Fail;
use x_text::MemSink;

/// Run by itself with each allocation refused in turn: an answer is the wanted one or `OutOfMemory`.
#[test]
fn sweep_reading(rt: HostRuntime) -> Result<(), Fail> {
    let wanted = GenArgs {
        routines: false,
        header: true,
        stubs: false,
        table: false,
        output: None,
        explains: false,
        plain: false,
        strict: false,
        before: nothing(rt.alloc()),
        file: "t.x",
    };
    match gen_args(rt.alloc(), ["rpcgen", "-h", "t.x"].as_slice()) {
        Ok(args) => {
            assert!(rt; args == wanted);
            println!(rt; "nothing was refused")?;
        }
        Err(error) => assert!(rt; error.kind() == ErrorKind::OutOfMemory),
    }
    Ok(())
}

const REFUSED: &str = "\
rpcgen: unexpected argument '-s' found
usage: rpcgen -c|-h|-l|-t [-o OUT] FILE
try 'rpcgen --help'
";

/// The same of a line that is no command line: what is told is its own or that memory ran out.
#[test]
fn sweep_refusing(rt: HostRuntime) -> Result<(), Fail> {
    let mut out = MemSink::new(&mut [], 256, 256);
    let mut told = [0u8; 128];
    let mut err = MemSink::new(&mut told, 128, 128);
    if let Err(error) = gen_args(rt.alloc(), ["rpcgen", "-s"].as_slice()) {
        let status = answer_words(rt.alloc(), &RPCGEN, &error, &mut out, &mut err);
        expect_eq(&rt, status, Status::Failed);
    }
    if err.bytes() == REFUSED.as_bytes() {
        println!(rt; "nothing was refused")?;
    } else {
        expect_eq(&rt, err.bytes(), b"rpcgen: out of memory\n".as_slice());
    }
    Ok(())
}

/// The same of a line that asks for the version.
#[test]
fn sweep_asking(rt: HostRuntime) -> Result<(), Fail> {
    let mut shown = [0u8; 128];
    let mut out = MemSink::new(&mut shown, 128, 128);
    let mut told = [0u8; 128];
    let mut err = MemSink::new(&mut told, 128, 128);
    if let Err(error) = gen_args(rt.alloc(), ["rpcgen", "-h", "--version"].as_slice()) {
        let status = answer_words(rt.alloc(), &RPCGEN, &error, &mut out, &mut err);
        assert!(rt; (status == Status::Done) == err.bytes().is_empty());
    }
    if out.bytes() == b"rpcgen 0.1.0\n".as_slice() {
        println!(rt; "nothing was refused")?;
    } else {
        expect_eq(&rt, out.bytes(), b"".as_slice());
        expect_eq(&rt, err.bytes(), b"rpcgen: out of memory\n".as_slice());
    }
    Ok(())
}
