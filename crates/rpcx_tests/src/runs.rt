//! Runs of the programs.
use crate::asserts::expect_eq;
use crate::before::nothing;
use rpcx::{
    DumpArgs, EditArgs, FaultStyle, GenArgs, KnownSources, Mode, Opening, Status, dump_run,
    edit_run, gen_mode, gen_open, gen_write,
};
use std::alloc::Global;
use std::test::Fail;
use x_session::{Session, Which};
use x_text::{MemSink, MemTap};

#[test]
fn a_generator_tells_of_a_full_sink(rt: HostRuntime) -> Result<(), Fail> {
    let session = Session::open(rt.alloc(), b"t", b"const A = 12;")?;
    let mut full = MemSink::new(&mut [], 256, 256);
    let mut told = [0u8; 64];
    let mut err = MemSink::new(&mut told, 64, 64);
    let status = gen_write(Which::Header, &session, &mut full, &mut err);
    expect_eq(&rt, status, Status::Failed);
    expect_eq(
        &rt,
        err.bytes(),
        b"rpcgen: output cannot be written\n".as_slice(),
    );
    Ok(())
}

/// A command line with two letters.
fn two_letters(alloc: Global) -> GenArgs<'static> {
    GenArgs {
        routines: true,
        header: true,
        stubs: false,
        table: false,
        output: None,
        explains: false,
        plain: false,
        strict: false,
        before: nothing(alloc),
        file: "t.x",
    }
}

/// A union whose case no enumerator has the name of.
const FAULTY: &[u8] = b"enum e {A=0}; union u switch (e d) {case B: int x; default: void;};";

#[test]
fn a_generator_wants_one_letter_and_no_fault(rt: HostRuntime) {
    let mut told = [0u8; 128];
    let mut err = MemSink::new(&mut told, 128, 128);
    let args = two_letters(rt.alloc());
    let mode = gen_mode(&args, &mut err);
    assert!(rt; mode.is_none());
    let known = KnownSources::none(rt.alloc());
    let how = Opening::of(FaultStyle::Plain, &known, &args.before);
    let opened = gen_open(rt.alloc(), "t.x", FAULTY, &how, &mut err);
    assert!(rt; matches!(opened, Err(Status::Faulty)));
    let wanted = "rpcgen: exactly one of -c, -h, -l, -t\nt.x:1:42: 21 Unknown\n";
    expect_eq(&rt, err.bytes(), wanted.as_bytes());
}

#[test]
fn an_editor_tells_of_a_failed_tap_and_a_full_sink(rt: HostRuntime) {
    let args = EditArgs {
        before: nothing(rt.alloc()),
        file: "a/t.x",
    };
    let known = KnownSources::none(rt.alloc());
    let how = Opening::of(FaultStyle::Plain, &known, &args.before);
    let mut told = [0u8; 64];
    let mut err = MemSink::new(&mut told, 64, 64);
    let mut full = MemSink::new(&mut [], 256, 256);
    let mut broken = MemTap::new(b"tokens\n", 64, 0);
    let status = edit_run(
        rt.alloc(),
        &args,
        &how,
        b"",
        &mut broken,
        &mut full,
        &mut err,
    );
    expect_eq(&rt, status, Status::Failed);
    let mut input = MemTap::new(b"tokens\n", 64, usize::MAX);
    let status = edit_run(
        rt.alloc(),
        &args,
        &how,
        b"",
        &mut input,
        &mut full,
        &mut err,
    );
    expect_eq(&rt, status, Status::Failed);
    let wanted = "rpcedit: -: cannot be read\nrpcedit: output cannot be written\n";
    expect_eq(&rt, err.bytes(), wanted.as_bytes());
}

/// A command line without options.
fn stream(alloc: Global) -> DumpArgs<'static> {
    DumpArgs {
        schema: None,
        bare: false,
        type_name: None,
        before: nothing(alloc),
        file: "s",
    }
}

#[test]
fn a_dumper_tells_of_a_failed_tap_and_a_full_sink(rt: HostRuntime) {
    let args = stream(rt.alloc());
    let known = KnownSources::none(rt.alloc());
    let how = Opening::of(FaultStyle::Plain, &known, &args.before);
    let mut told = [0u8; 64];
    let mut err = MemSink::new(&mut told, 64, 64);
    let mut full = MemSink::new(&mut [], 256, 256);
    let mut broken = MemTap::new(b"", 64, 0);
    let status = dump_run(
        rt.alloc(),
        &args,
        Mode::Stream,
        None,
        &how,
        &mut broken,
        &mut full,
        &mut err,
    );
    expect_eq(&rt, status, Status::Failed);
    // A record of no bytes.
    let mut input = MemTap::new(b"\x80\0\0\0", 64, usize::MAX);
    let status = dump_run(
        rt.alloc(),
        &args,
        Mode::Stream,
        None,
        &how,
        &mut input,
        &mut full,
        &mut err,
    );
    expect_eq(&rt, status, Status::Failed);
    let wanted = "rpcdump: s: cannot be read\nrpcdump: output cannot be written\n";
    expect_eq(&rt, err.bytes(), wanted.as_bytes());
}

#[test]
fn a_dumper_tells_of_a_failed_tap_before_a_value(rt: HostRuntime) {
    let mut told = [0u8; 64];
    let mut err = MemSink::new(&mut told, 64, 64);
    let mut written = [0u8; 64];
    let mut out = MemSink::new(&mut written, 64, 64);
    let args = DumpArgs {
        type_name: Some("w"),
        ..stream(rt.alloc())
    };
    let known = KnownSources::none(rt.alloc());
    let how = Opening::of(FaultStyle::Plain, &known, &args.before);
    let schema = Some(b"typedef unsigned int w;".as_slice());
    let mut broken = MemTap::new(b"\xff\xff\xff\xff", 2, 2);
    let status = dump_run(
        rt.alloc(),
        &args,
        Mode::Value,
        schema,
        &how,
        &mut broken,
        &mut out,
        &mut err,
    );
    expect_eq(&rt, status, Status::Failed);
    expect_eq(&rt, err.bytes(), b"rpcdump: s: cannot be read\n".as_slice());
    expect_eq(&rt, out.bytes(), b"".as_slice());
    let mut input = MemTap::new(b"\xff\xff\xff\xff", 2, usize::MAX);
    let status = dump_run(
        rt.alloc(),
        &args,
        Mode::Value,
        schema,
        &how,
        &mut input,
        &mut out,
        &mut err,
    );
    expect_eq(&rt, status, Status::Done);
    expect_eq(&rt, out.bytes(), b"0 w = 4294967295\n".as_slice());
}

#[test]
fn a_dumper_tells_of_a_bad_stream_before_a_failed_tap(rt: HostRuntime) {
    let args = stream(rt.alloc());
    let known = KnownSources::none(rt.alloc());
    let how = Opening::of(FaultStyle::Plain, &known, &args.before);
    let mut told = [0u8; 64];
    let mut err = MemSink::new(&mut told, 64, 64);
    let mut written = [0u8; 64];
    let mut out = MemSink::new(&mut written, 64, 64);
    let mut cut = MemTap::new(b"\x80\0", 2, usize::MAX);
    let status = dump_run(
        rt.alloc(),
        &args,
        Mode::Stream,
        None,
        &how,
        &mut cut,
        &mut out,
        &mut err,
    );
    expect_eq(&rt, status, Status::Faulty);
    // It fails behind the header.
    let mut broken = MemTap::new(b"\x80\x10\0\x01\0", 4, 4);
    let status = dump_run(
        rt.alloc(),
        &args,
        Mode::Stream,
        None,
        &how,
        &mut broken,
        &mut out,
        &mut err,
    );
    expect_eq(&rt, status, Status::Faulty);
    let wanted = "fault 61 Truncated at 2\nfault 60 RecordTooLong at 0\n";
    expect_eq(&rt, out.bytes(), wanted.as_bytes());
    expect_eq(&rt, err.bytes(), b"".as_slice());
}
