//! The arguments and the results in messages.
ghost use Rattle.std.specs.Prelude.{◌≡◌, ◌++◌, MatchOption, IfOk};
ghost use Rattle.x_streams.specs.Writing.{Adds};
ghost use Rattle.x_schema.specs.Schema.{IsTypeId};
ghost use Rattle.x_value.specs.FaultTexts.{fault_line};
ghost use Rattle.x_wire.specs.Bodies.{IsReadAs, told_of};
ghost use Rattle.x_wire.specs.MessageTexts.{raw_line};

use super::lines::add_raw;
use std::alloc::Global;
use x_schema::{Schema, TypeId};
use x_text::{NoMemory, Pen, Sink};
use x_value::{Dump, ReadCode, ReadFault, dump};

/// What arguments or results are.
#[derive(Drop)]
pub(super) enum Body<'a> {
    /// Their type is not known.
    Unread,
    /// A value.
    Value(Dump<'a>),
    /// No value of their type.
    Refused(ReadFault),
}

/// Reads arguments or results by their type, if it is known.
pub(super) fn read_body<'a>(
    alloc: Global,
    schema: &'a Schema,
    id: Option<TypeId>,
    bytes: &'a [u8],
) -> Result<Body<'a>, NoMemory>
    requires { MatchOption id (Unit {0}) (λ id. IsTypeId schema.now id) }
    ensures { IfOk result (λ body. IsReadAs schema.now id bytes.now body) }
{
    let Some(id) = id else {
        return Ok(Body::Unread);
    };
    match dump(alloc, schema, id, bytes) {
        Ok(dump) => Ok(Body::Value(dump)),
        Err(fault) => {
            if fault.code == ReadCode::NoMemory {
                return Err(NoMemory);
            }
            Ok(Body::Refused(fault))
        }
    }
}

impl Body<'_> {
    /// Adds the lines of arguments or results, and answers whether a fault is among them. The bytes are
    /// those that were read.
    pub(super) fn add_lines<S: Sink>(&self, bytes: &[u8], pen: &mut Pen, sink: &mut S) -> bool
        ensures added { Adds pen.old (S.state sink.old) pen.new (S.state sink.new)
            (told_of self.now bytes.now).text }
        ensures refused { result ≡ (told_of self.now bytes.now).refused }
    {
        match self {
            Body::Unread => {
                add_raw(bytes, pen, sink);
                false
            }
            Body::Value(dump) => {
                dump.add_lines(pen, sink);
                false
            }
            Body::Refused(fault) => {
                add_refused(fault, bytes, pen, sink);
                true
            }
        }
    }
}

/// Adds the fault of arguments or results, and their bytes.
#[tactic(auto, using(x_text::proofs::Adding::two))]
fn add_refused<S: Sink>(fault: &ReadFault, bytes: &[u8], pen: &mut Pen, sink: &mut S)
    ensures { Adds pen.old (S.state sink.old) pen.new (S.state sink.new)
        (fault_line fault.now.at fault.now.code ++ raw_line bytes.now) }
{
    fault.add_line(pen, sink);
    add_raw(bytes, pen, sink);
}
