//! What a server says where memory runs out.
ghost use Rattle.std.specs.Prelude.{◌≤◌};

use crate::said::text_of;
use crate::setting::SETTING;
use refusals::{MOST_TURNS, begin, end};
use std::alloc::Global;
use std::process::Abort;
use std::test::Fail;
use x_hash::HashKey;
use x_lsp::Server;

const INITIALIZE: &[u8] = b"{\"id\":1,\"method\":\"initialize\",\"params\":{\"capabilities\":{}}}";

const OPEN: &[u8] =
    b"{\"method\":\"textDocument/didOpen\",\"params\":{\"textDocument\":{\"uri\":\"t.x\",\
\"languageId\":\"x\",\"version\":1,\"text\":\"struct s { t a; };\"}}}";

/// A change whose text has a fault, and what is published of it.
const CHANGE: &[u8] =
    b"{\"method\":\"textDocument/didChange\",\"params\":{\"textDocument\":{\"uri\":\"t.x\",\
\"version\":2},\"contentChanges\":[{\"range\":{\"start\":{\"line\":0,\"character\":11},\"end\":{\"line\":0,\
\"character\":12}},\"text\":\"int\"},{\"range\":{\"start\":{\"line\":0,\"character\":20},\"end\":{\"line\":0,\
\"character\":20}},\"text\":\"const N = M;\"}]}}";

const CHANGED: &[u8] =
    b"{\"jsonrpc\":\"2.0\",\"method\":\"textDocument/publishDiagnostics\",\"params\":{\
\"diagnostics\":[{\"code\":21,\"message\":\"21 Unknown: undeclared name 'M'\",\"range\":{\"end\":{\
\"character\":31,\"line\":0},\"start\":{\"character\":30,\"line\":0}},\"severity\":1,\
\"source\":\"rpcgen\"}],\"uri\":\"t.x\",\"version\":2}}";

/// The same text, sent whole.
const WHOLE: &[u8] =
    b"{\"method\":\"textDocument/didChange\",\"params\":{\"textDocument\":{\"uri\":\"t.x\",\
\"version\":2},\"contentChanges\":[{\"text\":\"struct s { int a; };const N = M;\"}]}}";

/// Another text, with a name that C has, and what is published of it.
const CLASHING: &[u8] =
    b"{\"method\":\"textDocument/didChange\",\"params\":{\"textDocument\":{\"uri\":\"t.x\",\
\"version\":2},\"contentChanges\":[{\"text\":\"struct register { int a; };\"}]}}";

const WARNED: &[u8] =
    b"{\"jsonrpc\":\"2.0\",\"method\":\"textDocument/publishDiagnostics\",\"params\":{\
\"diagnostics\":[{\"message\":\"'register' is a keyword of C\",\"range\":{\"end\":{\
\"character\":15,\"line\":0},\"start\":{\"character\":7,\"line\":0}},\"severity\":2,\
\"source\":\"rpcgen\"}],\"uri\":\"t.x\",\"version\":2}}";

/// Where the struct is used, and where it is declared.
const REFERENCES: &[u8] =
    b"{\"id\":7,\"method\":\"textDocument/references\",\"params\":{\"textDocument\":{\
\"uri\":\"t.x\"},\"position\":{\"line\":0,\"character\":7},\"context\":{\"includeDeclaration\":true}}}";

const REFERRED: &[u8] =
    b"{\"id\":7,\"jsonrpc\":\"2.0\",\"result\":[{\"range\":{\"end\":{\"character\":8,\
\"line\":0},\"start\":{\"character\":7,\"line\":0}},\"uri\":\"t.x\"}]}";

/// What tells that memory ran out: an answer to the request, an answer to a message that was not read, and a
/// note.
pub const ANSWER: &[u8] =
    b"{\"error\":{\"code\":-32603,\"message\":\"out of memory\"},\"id\":7,\"jsonrpc\":\"2.0\"}";

pub const ANSWER_TO_NONE: &[u8] =
    b"{\"error\":{\"code\":-32603,\"message\":\"out of memory\"},\"id\":null,\"jsonrpc\":\"2.0\"}";

const NOTE: &[u8] = b"{\"jsonrpc\":\"2.0\",\"method\":\"window/showMessage\",\"params\":{\
\"message\":\"out of memory\",\"type\":1}}";

/// A message, and what is said to it.
#[derive(Clone, Copy)]
struct Exchange {
    message: &'static [u8],
    wanted: &'static [u8],
}

const OF_THE_CHANGE: Exchange = Exchange {
    message: CHANGE,
    wanted: CHANGED,
};

const OF_THE_WHOLE: Exchange = Exchange {
    message: WHOLE,
    wanted: CHANGED,
};

const OF_THE_CLASH: Exchange = Exchange {
    message: CLASHING,
    wanted: WARNED,
};

const OF_THE_QUESTION: Exchange = Exchange {
    message: REFERENCES,
    wanted: REFERRED,
};

/// Says a message with allocations refused, and tells whether one was: then memory may be told to have run
/// out in place of what is wanted.
fn say(
    rt: &impl Abort,
    alloc: Global,
    server: &mut Server,
    turn: usize,
    exchange: Exchange,
) -> Result<bool, Fail>
    requires { turn ≤ 20000 }
{
    begin(alloc, turn)?;
    let said = server.reply(exchange.message);
    let refused = end(alloc);
    let kept = text_of(alloc, server, &said)?;
    let text = kept.as_slice();
    let told = text == ANSWER || text == ANSWER_TO_NONE || text == NOTE;
    assert!(rt; text == exchange.wanted || (refused && told));
    Ok(refused)
}

fn expect(
    rt: &impl Abort,
    alloc: Global,
    server: &mut Server,
    exchange: Exchange,
) -> Result<(), Fail> {
    let said = server.reply(exchange.message);
    assert!(rt; text_of(alloc, server, &said)?.as_slice() == exchange.wanted);
    Ok(())
}

/// Each allocation of a message to a server with an open document refused in turn. Sent whole behind that,
/// the document is as the client has it.
fn say_with_little_memory(
    rt: &impl Abort,
    alloc: Global,
    exchange: Exchange,
) -> Result<usize, Fail> {
    for turn in 0..MOST_TURNS {
        let mut server = Server::new(alloc, HashKey::of_bytes(b""), SETTING)?;
        let _first = server.reply(INITIALIZE);
        let _opened = server.reply(OPEN);
        let refused = say(rt, alloc, &mut server, turn, exchange)?;
        expect(rt, alloc, &mut server, OF_THE_WHOLE)?;
        expect(rt, alloc, &mut server, OF_THE_QUESTION)?;
        if !refused {
            return Ok(turn);
        }
    }
    panic!(rt; "a message never ends")
}

/// Each allocation of a change, of one to a name that clashes in C, and of a question, refused in turn.
#[test]
fn refused_messages(rt: HostRuntime) -> Result<(), Fail> {
    let change = say_with_little_memory(&rt, rt.alloc(), OF_THE_CHANGE)?;
    let clash = say_with_little_memory(&rt, rt.alloc(), OF_THE_CLASH)?;
    let question = say_with_little_memory(&rt, rt.alloc(), OF_THE_QUESTION)?;
    println!(rt; "turns: {change} {clash} {question}")?;
    Ok(())
}
