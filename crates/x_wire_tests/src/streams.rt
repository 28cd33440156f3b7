//! Streams as they are shown.
ghost use Rattle.std.specs.Prelude.{◌≤◌};

use crate::asserts::expect_eq;
use crate::records::feed_cut;
use crate::schemas::nfs2_schema;
use refusals::{MOST_TURNS, begin, end};
use std::alloc::Global;
use std::io::{self, Write};
use std::process::Abort;
use std::test::Fail;
use x_text::{MemSink, MemTap, Out};
use x_wire::{EngineFault, Outcome, Schema, dump_message, dump_stream, dump_value};

/// A call of procedure 0 of NFS version 2, and its reply.
pub const NULL_CALL: &[u8] =
    b"\x80\0\0\x28\0\0\0\x01\0\0\0\0\0\0\0\x02\0\x01\x86\xa3\0\0\0\x02\0\0\0\0\
\0\0\0\0\0\0\0\0\0\0\0\0\0\0\0\0\x80\0\0\x18\0\0\0\x01\0\0\0\x01\0\0\0\0\0\0\0\0\0\0\0\0\0\0\0\0";

pub const CALL_TEXT: &[u8] = b"# 1 call xid=1 rpcvers=2 prog=100003 vers=2 proc=0 NFSPROC_NULL
cred 0 0x
verf 0 0x
0 args = void
";

const REPLY_TEXT: &[u8] = b"# 2 reply xid=1 accepted SUCCESS call=1 NFSPROC_NULL
verf 0 0x
0 results = void
";

/// A call of procedure 16, and its reply in three fragments, the second of them empty.
pub const READDIR: &[u8] =
    b"\x80\0\0P\0\0\0\x07\0\0\0\0\0\0\0\x02\0\x01\x86\xa3\0\0\0\x02\0\0\0\x10\0\0\0\0\0\0\0\0\0\0\0\0\
\0\0\0\0\n\n\n\n\n\n\n\n\n\n\n\n\n\n\n\n\n\n\n\n\n\n\n\n\n\n\n\n\n\n\n\n\0\0\0\0\0\0\x20\0\0\0\0\
\x18\0\0\0\x07\0\0\0\x01\0\0\0\0\0\0\0\0\0\0\0\0\0\0\0\0\0\0\0\0\x80\0\04\0\0\0\0\0\0\0\x01\0\0\
\0\x05\0\0\0\x01a\0\0\0\0\0\0\x01\0\0\0\x01\0\0\0\x06\0\0\0\x02bc\0\0\0\0\0\x02\0\0\0\0\0\0\0\
\x01";

pub const READDIR_CALL_TEXT: &[u8] =
    b"# 1 call xid=7 rpcvers=2 prog=100003 vers=2 proc=16 NFSPROC_READDIR
cred 0 0x
verf 0 0x
0 args = struct
1 dir = 0x0a0a0a0a0a0a0a0a0a0a0a0a0a0a0a0a0a0a0a0a0a0a0a0a0a0a0a0a0a0a0a0a
1 cookie = 0x00000000
1 count = 8192
";

const READDIR_REPLY_TEXT: &[u8] = b"# 2 reply xid=7 accepted SUCCESS call=1 NFSPROC_READDIR
verf 0 0x
0 results = union
1 status = NFS_OK (0)
1 readdirok = struct
2 entries = link
3 * = struct
4 fileid = 5
4 name = \"a\"
4 cookie = 0x00000001
4 nextentry = link
5 * = struct
6 fileid = 6
6 name = \"bc\"
6 cookie = 0x00000002
6 nextentry = null
2 eof = TRUE
";

/// The results alone, as a value of their type.
pub const READDIR_RESULTS: &[u8] = b"0 readdirres = union
1 status = NFS_OK (0)
1 readdirok = struct
2 entries = link
3 * = struct
4 fileid = 5
4 name = \"a\"
4 cookie = 0x00000001
4 nextentry = link
5 * = struct
6 fileid = 6
6 name = \"bc\"
6 cookie = 0x00000002
6 nextentry = null
2 eof = TRUE
";

/// A stream, and what is told of its call and of its reply.
#[derive(Drop)]
struct Row {
    stream: &'static [u8],
    call: &'static [u8],
    reply: &'static [u8],
}

const ROWS: [Row; 2] = [
    Row {
        stream: NULL_CALL,
        call: CALL_TEXT,
        reply: REPLY_TEXT,
    },
    Row {
        stream: READDIR,
        call: READDIR_CALL_TEXT,
        reply: READDIR_REPLY_TEXT,
    },
];

impl Row {
    /// All that is told.
    fn text(&self, alloc: Global) -> Result<Vec<u8>, Fail> {
        let mut text = Vec::from_slice(alloc, self.call)?;
        text.extend_from_slice(self.reply)?;
        Ok(text)
    }
}

/// Where the call ends in the first stream.
const CALL_END: usize = 44;

/// Whole, byte by byte, and in pieces of every size between.
#[test]
fn a_stream_is_told_in_pieces_of_every_size(rt: HostRuntime) -> Result<(), Fail> {
    let schema = nfs2_schema(rt.alloc())?;
    tell_in_pieces(&rt, rt.alloc(), &schema)
}

fn tell_in_pieces(rt: &impl Abort, alloc: Global, schema: &Schema) -> Result<(), Fail> {
    let text = ROWS[1].text(alloc)?;
    for size in 1..=READDIR.len() {
        let mut told = [0u8; 1024];
        let mut sink = MemSink::new(&mut told, 1024, 1024);
        let mut tap = MemTap::new(READDIR, size, usize::MAX);
        let result = dump_stream(alloc, schema, &mut tap, &mut sink);
        assert!(rt; result == Ok(Outcome::Clean) && sink.bytes() == text.as_slice());
    }
    Ok(())
}

/// In every cut into two.
#[test]
fn a_reply_in_fragments_is_one_record_in_every_cut(rt: HostRuntime) {
    let mut whole = Vec::new(rt.alloc());
    assert!(rt; feed_cut(rt.alloc(), READDIR, 0, &mut whole).is_ok());
    for cut in 0..=READDIR.len() {
        let mut text = Vec::new(rt.alloc());
        let end = feed_cut(rt.alloc(), READDIR, cut, &mut text);
        assert!(rt; end.is_ok() && text.as_slice() == whole.as_slice());
    }
}

/// How many bytes are told of the records that are whole in the first bytes of the first stream.
fn told_of(count: usize) -> usize {
    if count < CALL_END {
        return 0;
    }
    if count < NULL_CALL.len() {
        return CALL_TEXT.len();
    }
    CALL_TEXT.len() + REPLY_TEXT.len()
}

/// Checks what is told of a tap.
fn expect_told(
    rt: &impl Abort,
    alloc: Global,
    schema: &Schema,
    tap: &mut MemTap,
    wanted: Result<Outcome, EngineFault>,
    text: &[u8],
) {
    let mut told = [0u8; 256];
    let mut sink = MemSink::new(&mut told, 256, 256);
    let result = dump_stream(alloc, schema, tap, &mut sink);
    expect_eq(rt, result, wanted);
    expect_eq(rt, sink.bytes(), text);
}

/// The stream cut to so many bytes, whole and byte by byte.
#[test]
fn a_stream_that_is_cut_is_told_as_far_as_it_goes(rt: HostRuntime) -> Result<(), Fail> {
    let schema = nfs2_schema(rt.alloc())?;
    for count in 0..=NULL_CALL.len() {
        tell_cut(&rt, rt.alloc(), &schema, count)?;
    }
    Ok(())
}

/// What is told of the first bytes of the first stream, and how that ends.
fn cut_text(alloc: Global, count: usize) -> Result<(Vec<u8>, Outcome), Fail> {
    let mut wanted = ROWS[0].text(alloc)?;
    wanted.truncate(told_of(count));
    if count == 0 || count == CALL_END || count == NULL_CALL.len() {
        return Ok((wanted, Outcome::Clean));
    }
    let line = format!(in alloc; "fault 61 Truncated at {count}\n")?;
    wanted.extend_from_slice(line.as_bytes())?;
    Ok((wanted, Outcome::Refused))
}

fn tell_cut(rt: &impl Abort, alloc: Global, schema: &Schema, count: usize) -> Result<(), Fail> {
    let (wanted, outcome) = cut_text(alloc, count)?;
    let stream = NULL_CALL.get(..count).unwrap_or_default();
    for most in [1, 100] {
        let mut tap = MemTap::new(stream, most, usize::MAX);
        expect_told(rt, alloc, schema, &mut tap, Ok(outcome), &wanted);
    }
    Ok(())
}

/// The stream as it comes, byte by byte, from a tap that fails after so many bytes.
#[test]
fn a_read_that_fails_comes_behind_all_whole_records(rt: HostRuntime) -> Result<(), Fail> {
    let schema = nfs2_schema(rt.alloc())?;
    for count in 0..=NULL_CALL.len() {
        fail_behind(&rt, rt.alloc(), &schema, count)?;
    }
    Ok(())
}

fn fail_behind(rt: &impl Abort, alloc: Global, schema: &Schema, count: usize) -> Result<(), Fail> {
    let mut wanted = ROWS[0].text(alloc)?;
    wanted.truncate(told_of(count));
    let written = wanted.len() as u64;
    let mut tap = MemTap::new(NULL_CALL, 1, count);
    let fault = Err(EngineFault::Read { written });
    expect_told(rt, alloc, schema, &mut tap, fault, &wanted);
    Ok(())
}

/// Byte by byte into a sink that fails after so many bytes.
#[test]
fn a_write_that_fails_comes_behind_the_first_bytes(rt: HostRuntime) -> Result<(), Fail> {
    let schema = nfs2_schema(rt.alloc())?;
    stop_at_each_byte(&rt, rt.alloc(), &schema)
}

fn stop_at_each_byte(rt: &impl Abort, alloc: Global, schema: &Schema) -> Result<(), Fail> {
    let text = ROWS[0].text(alloc)?;
    for count in 0..text.len() {
        stop_behind(rt, alloc, schema, &text, count);
    }
    Ok(())
}

fn stop_behind(rt: &impl Abort, alloc: Global, schema: &Schema, text: &[u8], count: usize) {
    let mut told = [0u8; 256];
    let mut sink = MemSink::new(&mut told, 1, count);
    let mut tap = MemTap::new(NULL_CALL, 7, usize::MAX);
    let result = dump_stream(alloc, schema, &mut tap, &mut sink);
    let written = count as u64;
    expect_eq(rt, result, Err(EngineFault::Write { written }));
    expect_eq(rt, Some(sink.bytes()), text.get(..count));
}

/// A writer that takes nothing.
#[derive(Drop)]
struct Stuck;

impl Write for Stuck {
    fn write(&mut self, _bytes: &[u8]) -> io::Result<usize> {
        Ok(0)
    }

    fn flush(&mut self) -> io::Result<()> {
        Ok(())
    }
}

/// What is told of a stream, a message and a value goes nowhere.
fn expect_stuck(rt: &impl Abort, alloc: Global, schema: &Schema) {
    let stuck = Err(EngineFault::Write { written: 0 });
    let mut tap = MemTap::new(NULL_CALL, 7, usize::MAX);
    expect_eq(
        rt,
        dump_stream(alloc, schema, &mut tap, &mut Out::new(Stuck)),
        stuck,
    );
    let call = &NULL_CALL[4..44];
    expect_eq(
        rt,
        dump_message(alloc, schema, call, &mut Out::new(Stuck)),
        stuck,
    );
    let value = match schema.type_named(b"ftype") {
        Some(id) => dump_value(alloc, schema, id, &[0u8; 4], &mut Out::new(Stuck)),
        None => Ok(Outcome::Clean),
    };
    expect_eq(rt, value, stuck);
}

#[test]
fn a_writer_that_takes_nothing_is_told(rt: HostRuntime) -> Result<(), Fail> {
    let schema = nfs2_schema(rt.alloc())?;
    expect_stuck(&rt, rt.alloc(), &schema);
    Ok(())
}

fn no_memory(written: usize) -> EngineFault {
    EngineFault::NoMemory {
        written: written as u64,
    }
}

/// Checks what is told of a stream where there is memory.
fn expect_row(rt: &impl Abort, alloc: Global, schema: &Schema, stream: &[u8], text: &[u8]) {
    let mut told = [0u8; 1024];
    let mut sink = MemSink::new(&mut told, 1024, 1024);
    let mut tap = MemTap::new(stream, 7, usize::MAX);
    let result = dump_stream(alloc, schema, &mut tap, &mut sink);
    expect_eq(rt, result, Ok(Outcome::Clean));
    expect_eq(rt, sink.bytes(), text);
}

/// Tells of a stream with one allocation refused after another: what was told before is told whole, and the
/// same stream is then told with memory.
fn tell_with_little_memory(
    rt: &impl Abort,
    alloc: Global,
    schema: &Schema,
    row: &Row,
) -> Result<usize, Fail> {
    let text = row.text(alloc)?;
    for turn in 0..MOST_TURNS {
        if !tell_once(rt, alloc, schema, row, &text, turn)? {
            return Ok(turn);
        }
    }
    panic!(rt; "telling never ends")
}

fn tell_once(
    rt: &impl Abort,
    alloc: Global,
    schema: &Schema,
    row: &Row,
    text: &[u8],
    turn: usize,
) -> Result<bool, Fail>
    requires { turn ≤ 20000 }
{
    let mut told = [0u8; 1024];
    let mut sink = MemSink::new(&mut told, 1024, 1024);
    let mut tap = MemTap::new(row.stream, 7, usize::MAX);
    begin(alloc, turn)?;
    let result = dump_stream(alloc, schema, &mut tap, &mut sink);
    let refused = end(alloc);
    let written = sink.bytes().len();
    expect_eq(rt, Some(sink.bytes()), text.get(..written));
    match result {
        Ok(outcome) => assert!(rt; outcome == Outcome::Clean && written == text.len()),
        Err(fault) => {
            assert!(rt; refused && fault == no_memory(written));
            assert!(rt; written == 0 || written == row.call.len() || written == text.len());
            expect_row(rt, alloc, schema, row.stream, text);
        }
    }
    Ok(refused)
}

/// Each allocation of telling of two streams.
#[test]
fn refused_streams(rt: HostRuntime) -> Result<(), Fail> {
    let schema = nfs2_schema(rt.alloc())?;
    for row in &ROWS {
        let turns = tell_with_little_memory(&rt, rt.alloc(), &schema, row)?;
        println!(rt; "turns: {turns}")?;
    }
    Ok(())
}
