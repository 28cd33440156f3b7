//! A conversation with a client, over a tap and a sink.

ghost use Rattle.std.specs.Prelude.{◌≡◌, MatchOption};
ghost use Rattle.x_frames.specs.Framing.{FailsReading};
ghost use Rattle.x_documents.specs.Grounds.{ground_of};
ghost use Rattle.x_lsp.specs.Saying.{said_by};
ghost use Rattle.x_lsp.specs.Serving.{AnswersNext, NamesFault, Serves, stop_by};
ghost use Rattle.x_lsp.specs.States.{IsTakenBefore, fresh, state_of};

use crate::heap_floor::HeapFloor;
use crate::said::Said;
use crate::server::Server;
use std::alloc::Global;
use thiserror::Error;
use x_documents::Setting;
use x_frames::{FrameFault, FrameFound, MessageReader};
use x_hash::HashKey;
use x_text::{Pen, Sink, Tap};

/// Why a conversation stops before its end, and how many bytes were written.
#[derive(Clone, Copy, Debug, PartialEq, Eq, Error)]
pub enum ServeFault {
    /// The tap could not be read on.
    #[error("a read failed, with {written} bytes written")]
    Read { written: u64 },
    /// What was read is no message.
    #[error("no message, with {written} bytes written")]
    Bad { written: u64 },
    /// An answer could not be written.
    #[error("a write failed after {written} bytes")]
    Write { written: u64 },
    /// Memory ran out.
    #[error("out of memory, with {written} bytes written")]
    NoMemory { written: u64 },
}

/// Answers the messages that a tap gives, one by one, until the client ends the server or there are no more.
/// It tells whether the client had asked it to shut down. Documents are compiled by the setting, and tables
/// of names hash by the key, as [`Server::new`] says.
///
/// # Errors
///
/// The tap failed: what is said to all messages that are whole in what was read is written. What was read is
/// no message, or memory ran out: what is said to the messages before is written. The sink failed.
pub fn serve<I: Tap, O: Sink>(
    alloc: Global,
    hash_key: HashKey,
    setting: Setting,
    input: &mut I,
    out: &mut O,
) -> Result<bool, ServeFault>
    ensures serves { MatchOption (I.state input.old).bytes (Unit {0})
        (λ bytes. Serves (ground_of setting.entry) bytes (I.state input.new).bytes (O.state out.old)
        (O.state out.new) result) }
    ensures fault { NamesFault result (I.state input.old).failed (I.state input.new).failed
        (O.state out.old).failed (O.state out.new).failed }
{
    match Server::new(alloc, hash_key, setting) {
        Ok(server) => {
            let mut server = server;
            converse(alloc, &mut server, input, out)
        }
        Err(_) => Err(ServeFault::NoMemory { written: 0 }),
    }
}

/// Has a server that no client has initialized answer the messages that a tap gives.
fn converse<I: Tap, O: Sink>(
    alloc: Global,
    server: &mut Server,
    input: &mut I,
    out: &mut O,
) -> Result<bool, ServeFault>
    requires { state_of server.old ≡ fresh (ground_of server.old.setting) }
    ensures serves { MatchOption (I.state input.old).bytes (Unit {0})
        (λ bytes. Serves (ground_of server.old.setting) bytes (I.state input.new).bytes
        (O.state out.old) (O.state out.new) result) }
    ensures fault { NamesFault result (I.state input.old).failed (I.state input.new).failed
        (O.state out.old).failed (O.state out.new).failed }
{
    let mut reader = MessageReader::new(alloc);
    let mut pen = Pen::new();
    let mut floor = HeapFloor::new(alloc);
    for _ in 0..u64::MAX {
        floor.settle(server.open_count());
        match answer_next(server, &mut reader, input, &mut pen, out) {
            Ok(Next::Answered) => {}
            Ok(Next::NoMore) => return Ok(false),
            Err(fault) => return Err(stop_by(fault, pen.written())),
        }
        pen.flush(out);
        if pen.has_stopped() {
            return Err(ServeFault::Write {
                written: pen.written(),
            });
        }
        if let Some(asked) = server.end() {
            return Ok(asked);
        }
    }
    // No tap comes to so many messages.
    Err(ServeFault::NoMemory {
        written: pen.written(),
    })
}

/// The fault that stops a conversation where no message is found.
fn stop_by(fault: FrameFault, written: u64) -> ServeFault
    ensures { result ≡ stop_by fault written }
{
    match fault {
        FrameFault::Read => ServeFault::Read { written },
        FrameFault::NoMemory => ServeFault::NoMemory { written },
        FrameFault::Bad => ServeFault::Bad { written },
    }
}

/// What became of the next message.
#[derive(Clone, Copy, Debug, PartialEq, Eq)]
enum Next {
    /// It is answered.
    Answered,
    /// There are no more.
    NoMore,
}

/// Finds the next message and answers it.
fn answer_next<I: Tap, O: Sink>(
    server: &mut Server,
    reader: &mut MessageReader,
    input: &mut I,
    pen: &mut Pen,
    out: &mut O,
) -> Result<Next, FrameFault>
    ensures answers { AnswersNext result reader.old reader.new (I.state input.old).bytes
        (I.state input.new).bytes (state_of server.old) (state_of server.new) pen.old (O.state out.old)
        pen.new (O.state out.new) }
    ensures failed { FailsReading result (I.state input.old).failed (I.state input.new).failed }
{
    match reader.next(input) {
        Ok(FrameFound::Message) => {
            let said = take_message(server, reader.body(), reader.unread());
            server.add_said(&said, pen, out);
            Ok(Next::Answered)
        }
        Ok(FrameFound::Long) => {
            let said = server.refuse_long();
            server.add_said(&said, pen, out);
            Ok(Next::Answered)
        }
        Ok(FrameFound::End) => Ok(Next::NoMore),
        Err(fault) => Err(fault),
    }
}

/// Answers a message with these bytes behind it.
fn take_message(server: &mut Server, body: &[u8], later: &[u8]) -> Said
    ensures { IsTakenBefore (state_of server.old) body.now later.now (said_by result)
        (state_of server.new) }
{
    match server.refuse_cancelled(body, later) {
        Some(said) => said,
        None => server.reply(body),
    }
}
