//! What is printed of messages, one after another.
ghost use Rattle.std.specs.Prelude.{◌≡◌, ◌+◌, [], IfOk, OnErr};
ghost use Rattle.x_schema.specs.Schema.{Schema};
ghost use Rattle.x_wire.specs.Calls.{numbers_called, procedure_called};
ghost use Rattle.x_wire.specs.LastCalls.{last_call};
ghost use Rattle.x_wire.specs.Messages.{body_of, body_of_reply, header_of, header_of_kind, header_of_reply};
ghost use Rattle.x_wire.specs.Tellers.{IsFound, Knows, TellsHeader, TellsMessage, TellsReply};
ghost use Rattle.x_wire.specs.Tellers.{arg_found, kept_by, name_found, number_kept};
ghost use Rattle.x_wire.specs.Tellers.{procedure_heard, res_found};
ghost use Rattle.x_wire.specs.declared.messages.parts.MessageKind.TheVariants as kinds;

use super::body::read_body;
use super::calls::{Calls, LastCall};
use super::heading::{Heading, MessageId};
use super::lines::{add_accepted, add_bad_header, add_call, add_denied};
use crate::{AcceptStat, Call, Message, MessageKind, RejectStat, Reply, message};
use std::alloc::Global;
use x_schema::{Procedure, ProcedureIndex, ProcedureNumbers, Schema, TypeId};
use x_text::{NoMemory, Pen, Sink};

/// The version of the protocol whose messages are read (RFC 5531, section 9).
const RPC_VERSION: u32 = 2;

/// Tells messages one after another. It counts them, and keeps the last call of each xid.
#[derive(Drop)]
pub(super) struct Teller {
    calls: Calls,
}

/// The procedure that a call names; what a call of another version of the protocol names is not said.
fn numbers_called(call: &Call) -> Option<ProcedureNumbers>
    ensures { result ≡ numbers_called call.now.rpcvers call.now.prog call.now.vers call.now.proc }
{
    if call.rpcvers != RPC_VERSION {
        return None;
    }
    Some(ProcedureNumbers {
        program: call.prog,
        version: call.vers,
        procedure: call.proc,
    })
}

/// Where the procedure of these numbers stands, if the schema has it.
fn find(schema: &Schema, numbers: Option<ProcedureNumbers>) -> Option<ProcedureIndex>
    ensures { kept_by schema.now result ≡ procedure_called schema.now numbers }
{
    schema.procedure_index(numbers?)
}

/// The procedure at an index, if there is one.
fn procedure_by(schema: &Schema, index: Option<ProcedureIndex>) -> Option<Procedure<'_>>
    ensures { IsFound schema.now (kept_by schema.now index) result }
{
    schema.procedure_at(index?)
}

/// The procedure of a call that was kept, if the schema has it.
fn procedure_of(schema: &Schema, heard: Option<LastCall>) -> Option<Procedure<'_>>
    ensures { IsFound schema.now (procedure_heard schema.now heard) result }
{
    match heard {
        Some(heard) => procedure_by(schema, heard.procedure),
        None => None,
    }
}

/// The number of a call that was kept.
fn number_of(heard: Option<LastCall>) -> Option<u64>
    ensures { result ≡ number_kept heard }
{
    match heard {
        Some(heard) => Some(heard.number),
        None => None,
    }
}

/// The name of a procedure, `?` where none is known.
fn name_of<'s>(procedure: &Option<Procedure<'s>>) -> &'s [u8]
    ensures { result.now ≡ name_found procedure.now }
{
    match procedure {
        Some(procedure) => procedure.name,
        None => b"?",
    }
}

/// What a procedure is called with, where one is known.
fn arg_of(procedure: &Option<Procedure<'_>>) -> Option<TypeId>
    ensures { result ≡ arg_found procedure.now }
{
    match procedure {
        Some(procedure) => Some(procedure.arg),
        None => None,
    }
}

/// What a procedure answers, where one is known.
fn res_of(procedure: &Option<Procedure<'_>>) -> Option<TypeId>
    ensures { result ≡ res_found procedure.now }
{
    match procedure {
        Some(procedure) => Some(procedure.res),
        None => None,
    }
}

impl Teller {
    /// One that told no message. It takes no memory.
    pub(super) fn new(alloc: Global) -> Teller
        ensures knows { (s : Schema) → Knows s (last_call result.calls) [] }
        ensures count { result.calls.count ≡ 0 }
    {
        Teller {
            calls: Calls::new(alloc),
        }
    }

    /// Tells the next message, and answers whether a fault was told. Without memory nothing is told.
    pub(super) fn tell<S: Sink>(
        &mut self,
        alloc: Global,
        schema: &Schema,
        bytes: &[u8],
        pen: &mut Pen,
        sink: &mut S,
    ) -> Result<bool, NoMemory>
        ensures told { IfOk result (λ refused. TellsMessage schema.now (self.old.calls.count + 1)
            (last_call self.old.calls) bytes.now refused (last_call self.new.calls)
            pen.old (S.state sink.old) pen.new (S.state sink.new)) }
        ensures count { IfOk result (λ _. self.new.calls.count ≡ self.old.calls.count + 1) }
        ensures same { OnErr result ((pen.new ≡ pen.old) × (sink.new ≡ sink.old)) }
    {
        self.calls.count_message()?;
        self.tell_bytes(alloc, schema, bytes, pen, sink)
    }

    /// Tells the message that was counted last.
    fn tell_bytes<S: Sink>(
        &mut self,
        alloc: Global,
        schema: &Schema,
        bytes: &[u8],
        pen: &mut Pen,
        sink: &mut S,
    ) -> Result<bool, NoMemory>
        ensures told { IfOk result (λ refused. TellsMessage schema.now self.old.calls.count
            (last_call self.old.calls) bytes.now refused (last_call self.new.calls)
            pen.old (S.state sink.old) pen.new (S.state sink.new)) }
        ensures same { OnErr result ((pen.new ≡ pen.old) × (sink.new ≡ sink.old)) }
        ensures count { self.new.calls.count ≡ self.old.calls.count }
    {
        match message(bytes) {
            Ok(message) => self.tell_message(alloc, schema, &message, pen, sink),
            Err(fault) => {
                add_bad_header(self.calls.count(), &fault, bytes, pen, sink);
                Ok(true)
            }
        }
    }

    /// Tells a message whose header is read.
    fn tell_message<S: Sink>(
        &mut self,
        alloc: Global,
        schema: &Schema,
        message: &Message,
        pen: &mut Pen,
        sink: &mut S,
    ) -> Result<bool, NoMemory>
        ensures told { IfOk result (λ refused. TellsHeader schema.now self.old.calls.count
            (last_call self.old.calls)
            (header_of message.now) (body_of message.now) refused (last_call self.new.calls)
            pen.old (S.state sink.old) pen.new (S.state sink.new)) }
        ensures same { OnErr result ((pen.new ≡ pen.old) × (sink.new ≡ sink.old)) }
        ensures count { self.new.calls.count ≡ self.old.calls.count }
    {
        match &message.kind {
            MessageKind::Call(call) => {
                self.tell_call(alloc, schema, message.xid, call, pen, sink)
            }
            MessageKind::Reply(reply) => {
                let id = MessageId {
                    number: self.calls.count(),
                    xid: message.xid,
                };
                let heard = self.calls.get(message.xid);
                tell_reply(alloc, schema, id, heard, reply, pen, sink)
            }
        }
    }

    /// Tells a call, and keeps it for its replies.
    fn tell_call<S: Sink>(
        &mut self,
        alloc: Global,
        schema: &Schema,
        xid: u32,
        call: &Call,
        pen: &mut Pen,
        sink: &mut S,
    ) -> Result<bool, NoMemory>
        ensures told { IfOk result (λ refused. TellsHeader schema.now self.old.calls.count
            (last_call self.old.calls)
            (header_of_kind xid (kinds.Call call.now)) call.now.body.now refused (last_call self.new.calls)
            pen.old (S.state sink.old) pen.new (S.state sink.new)) }
        ensures same { OnErr result ((pen.new ≡ pen.old) × (sink.new ≡ sink.old)) }
        ensures count { self.new.calls.count ≡ self.old.calls.count }
    {
        let number = self.calls.count();
        let index = find(schema, numbers_called(call));
        let procedure = procedure_by(schema, index);
        let arguments = read_body(alloc, schema, arg_of(&procedure), call.body)?;
        self.calls.put(alloc, xid, index)?;
        let heading = Heading {
            id: MessageId { number, xid },
            call: Some(number),
            name: name_of(&procedure),
        };
        add_call(&heading, call, pen, sink);
        Ok(arguments.add_lines(call.body, pen, sink))
    }
}

/// Tells a reply to this call, if to any.
fn tell_reply<S: Sink>(
    alloc: Global,
    schema: &Schema,
    id: MessageId,
    heard: Option<LastCall>,
    reply: &Reply,
    pen: &mut Pen,
    sink: &mut S,
) -> Result<bool, NoMemory>
    ensures told { IfOk result (λ refused. TellsReply schema.now id.number id.xid heard
        (header_of_reply id.xid reply.now) (body_of_reply reply.now) refused
        pen.old (S.state sink.old) pen.new (S.state sink.new)) }
    ensures same { OnErr result ((pen.new ≡ pen.old) × (sink.new ≡ sink.old)) }
{
    let procedure = procedure_of(schema, heard);
    let heading = Heading {
        id,
        call: number_of(heard),
        name: name_of(&procedure),
    };
    match reply {
        Reply::Denied(stat) => {
            add_denied(&heading, stat, pen, sink);
            Ok(false)
        }
        Reply::Accepted { verf, stat } => {
            let AcceptStat::Success { body } = stat else {
                add_accepted(&heading, verf, stat, pen, sink);
                return Ok(false);
            };
            let results = read_body(alloc, schema, res_of(&procedure), body)?;
            add_accepted(&heading, verf, stat, pen, sink);
            Ok(results.add_lines(body, pen, sink))
        }
    }
}
