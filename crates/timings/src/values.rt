//! How long the reading of a message as a value of a type of a `.x` file takes.

ghost use Rattle.x_schema.specs.Schema.{IsTypeId};

use crate::read::read;
use std::io;
use std::time::Instant;
use x_schema::{Schema, TypeId};
use x_session::Session;
use x_value::dump;

/// How often the message is read: the least time counts.
const ROUNDS: u32 = 20;

/// The most bytes of a file.
const MOST: u64 = 1 << 30;

/// Reads the message again and again, and prints the least time and how many nodes there are. The id is one
/// of the schema's.
fn time(rt: &HostRuntime, schema: &Schema, id: TypeId, message: &[u8]) -> io::Result<()>
    requires { IsTypeId schema.now id }
{
    let mut least = u64::MAX;
    let mut nodes = 0;
    for _ in 0..ROUNDS {
        let start = Instant::now(rt)?;
        match dump(rt.alloc(), schema, id, message) {
            Ok(dump) => nodes = dump.len(),
            Err(fault) => {
                let at = fault.at;
                return println!(rt; "refused at {at}");
            }
        }
        let taken = u64::try_from(start.elapsed(rt)?.as_nanos()).unwrap_or(u64::MAX);
        least = least.min(taken);
    }
    let bytes = message.len();
    println!(rt; "{bytes} bytes, {nodes} nodes: {least} ns")
}

/// Times the message as a value of the type of this name.
fn time_named(rt: &HostRuntime, schema: &Schema, name: &str, message: &[u8]) -> io::Result<()> {
    match schema.type_named(name.as_bytes()) {
        Some(id) => time(rt, schema, id, message),
        None => println!(rt; "no such type"),
    }
}

/// Times the message by the types of the session's text.
fn time_typed(rt: &HostRuntime, session: &Session, name: &str, message: &[u8]) -> io::Result<()> {
    match session.schema() {
        Ok(schema) => time_named(rt, &schema, name, message),
        Err(_) => println!(rt; "the schema has faults"),
    }
}

/// Times the message by the types of a text.
fn time_by(rt: &HostRuntime, text: &[u8], name: &str, message: &[u8]) -> io::Result<()> {
    match Session::open(rt.alloc(), b"t", text) {
        Ok(session) => time_typed(rt, &session, name, message),
        Err(_) => println!(rt; "the schema can't be opened"),
    }
}

/// Times the message of a file.
pub(crate) fn time_value(
    rt: &HostRuntime,
    schema: &str,
    name: &str,
    message: &str,
) -> io::Result<()> {
    let text = read(rt, schema, MOST)?;
    let message = read(rt, message, MOST)?;
    time_by(rt, &text, name, &message)
}
