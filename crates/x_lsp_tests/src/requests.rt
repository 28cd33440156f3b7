//! Each request that the server knows, and a conversation, with every allocation refused in turn.

ghost use Rattle.std.specs.Prelude.{◌≤◌};

use crate::memory::{ANSWER, ANSWER_TO_NONE};
use crate::said::text_of;
use crate::setting::SETTING;
use refusals::{MOST_TURNS, begin, end};
use std::alloc::Global;
use std::process::Abort;
use std::test::Fail;
use x_hash::HashKey;
use x_lsp::{ServeFault, Server, serve};
use x_text::{MemSink, MemTap};

const INITIALIZE: &[u8] =
    b"{\"id\":7,\"method\":\"initialize\",\"params\":{\"capabilities\":{\"general\":{\
\"positionEncodings\":[\"utf-8\"]}}}}";

const OPEN: &[u8] =
    b"{\"method\":\"textDocument/didOpen\",\"params\":{\"textDocument\":{\"uri\":\"t.x\",\
\"languageId\":\"x\",\"version\":1,\"text\":\"const A = 1;\\nstruct s {\\n int a[A];\\n};\"}}}";

const SHUTDOWN: &[u8] = b"{\"id\":7,\"method\":\"shutdown\"}";

const EXIT: &[u8] = b"{\"method\":\"exit\"}";

/// The place of `A` in its declaration.
const AT: &str = ",\"position\":{\"line\":0,\"character\":6}";

/// Its uses there and its declaration.
const BOTH: &str =
    ",\"position\":{\"line\":0,\"character\":6},\"context\":{\"includeDeclaration\":true}";

const RENAMED: &str = ",\"position\":{\"line\":0,\"character\":6},\"newName\":\"B\"";

/// Each request about a document, and what its parameters have beside the document.
const REQUESTS: [(&str, &str); 12] = [
    ("textDocument/documentSymbol", ""),
    ("textDocument/foldingRange", ""),
    ("textDocument/semanticTokens/full", ""),
    ("rpcgen/text", ",\"which\":\"header\""),
    ("rpcgen/text", ",\"which\":\"faults\""),
    ("textDocument/definition", AT),
    ("textDocument/references", BOTH),
    ("textDocument/documentHighlight", AT),
    ("textDocument/hover", AT),
    ("textDocument/completion", AT),
    ("textDocument/prepareRename", AT),
    ("textDocument/rename", RENAMED),
];

/// A server that was told these messages.
fn server_behind(alloc: Global, before: &[&[u8]]) -> Result<Server<'static>, Fail> {
    let mut server = Server::new(alloc, HashKey::of_bytes(b""), SETTING)?;
    for message in before {
        let _said = server.reply(message);
    }
    Ok(server)
}

/// What a server says to a message behind these.
fn said_to(alloc: Global, before: &[&[u8]], message: &[u8]) -> Result<Vec<u8>, Fail> {
    let mut server = server_behind(alloc, before)?;
    let said = server.reply(message);
    text_of(alloc, &server, &said)
}

/// Says a message in a turn: what is said is what is wanted, or that memory ran out.
fn ask_once(
    rt: &impl Abort,
    alloc: Global,
    server: &mut Server,
    message: &[u8],
    wanted: &[u8],
    turn: usize,
) -> Result<bool, Fail>
    requires { turn ≤ 20000 }
{
    begin(alloc, turn)?;
    let said = server.reply(message);
    let refused = end(alloc);
    let kept = text_of(alloc, server, &said)?;
    let text = kept.as_slice();
    assert!(rt; text == wanted || (refused && (text == ANSWER || text == ANSWER_TO_NONE)));
    Ok(refused)
}

/// Says a message behind these with one allocation refused after another.
fn ask_in_turns(
    rt: &impl Abort,
    alloc: Global,
    before: &[&[u8]],
    message: &[u8],
) -> Result<usize, Fail> {
    let wanted = said_to(alloc, before, message)?;
    assert!(rt; !wanted.is_empty() && !tells(&wanted) && !is_error(&wanted));
    for turn in 0..MOST_TURNS {
        let mut server = server_behind(alloc, before)?;
        if !ask_once(rt, alloc, &mut server, message, &wanted, turn)? {
            return Ok(turn);
        }
    }
    panic!(rt; "a request never ends")
}

/// Whether the bytes have others within them.
fn has(bytes: &[u8], others: &[u8]) -> bool {
    (0..bytes.len()).any(|at| bytes.get(at..).unwrap_or_default().starts_with(others))
}

/// Whether it is told that memory ran out.
fn tells(bytes: &[u8]) -> bool {
    has(bytes, b"out of memory")
}

fn is_error(bytes: &[u8]) -> bool {
    has(bytes, b"\"error\"")
}

/// Each request about an open document.
#[test]
fn refused_requests(rt: HostRuntime) -> Result<(), Fail> {
    let alloc = rt.alloc();
    for (method, params) in REQUESTS {
        let message = format!(in alloc;
            "{{\"id\":7,\"method\":\"{method}\",\"params\":{{\"textDocument\":{{\"uri\":\"t.x\"}}{params}}}}}"
        )?;
        let turns = ask_in_turns(&rt, alloc, &[INITIALIZE, OPEN], message.as_bytes())?;
        println!(rt; "turns: {turns}")?;
    }
    Ok(())
}

/// The requests that begin and end the life of a server.
#[test]
fn refused_lives(rt: HostRuntime) -> Result<(), Fail> {
    let beginning = ask_in_turns(&rt, rt.alloc(), &[], INITIALIZE)?;
    let ending = ask_in_turns(&rt, rt.alloc(), &[INITIALIZE], SHUTDOWN)?;
    println!(rt; "turns: {beginning} {ending}")?;
    Ok(())
}

/// The messages of a conversation as they are sent.
fn conversation(alloc: Global) -> Result<Vec<u8>, Fail> {
    let mut stream = Vec::new(alloc);
    for message in [INITIALIZE, OPEN, SHUTDOWN, EXIT] {
        let length = message.len();
        let head = format!(in alloc; "Content-Length: {length}\r\n\r\n")?;
        stream.extend_from_slice(head.as_bytes())?;
        stream.extend_from_slice(message)?;
    }
    Ok(stream)
}

/// Serves the conversation in a turn: all that is said is what is wanted, or it is told or answered that
/// memory ran out.
fn serve_once(
    rt: &impl Abort,
    alloc: Global,
    stream: &[u8],
    wanted: &[u8],
    turn: usize,
) -> Result<bool, Fail>
    requires { turn ≤ 20000 }
{
    let mut said = [0u8; 4096];
    let mut sink = MemSink::new(&mut said, 4096, 4096);
    let mut tap = MemTap::new(stream, 64, usize::MAX);
    begin(alloc, turn)?;
    let result = serve(alloc, HashKey::of_bytes(b""), SETTING, &mut tap, &mut sink);
    let refused = end(alloc);
    if sink.bytes() == wanted {
        assert!(rt; result == Ok(true));
        return Ok(refused);
    }
    let written = sink.bytes().len() as u64;
    let stopped = result == Err(ServeFault::NoMemory { written });
    assert!(rt; refused && (stopped || (result.is_ok() && tells(sink.bytes()))));
    Ok(refused)
}

fn serve_in_turns(
    rt: &impl Abort,
    alloc: Global,
    stream: &[u8],
    wanted: &[u8],
) -> Result<usize, Fail> {
    for turn in 0..MOST_TURNS {
        if !serve_once(rt, alloc, stream, wanted, turn)? {
            return Ok(turn);
        }
    }
    panic!(rt; "a conversation never ends")
}

/// A conversation from its start to its end.
#[test]
fn refused_conversation(rt: HostRuntime) -> Result<(), Fail> {
    let stream = conversation(rt.alloc())?;
    let mut said = [0u8; 4096];
    let mut sink = MemSink::new(&mut said, 4096, 4096);
    let mut tap = MemTap::new(&stream, 64, usize::MAX);
    assert!(rt;
        serve(
            rt.alloc(),
            HashKey::of_bytes(b""),
            SETTING,
            &mut tap,
            &mut sink,
        ) == Ok(true)
    );
    let turns = serve_in_turns(&rt, rt.alloc(), &stream, sink.bytes())?;
    println!(rt; "turns: {turns}")?;
    Ok(())
}
