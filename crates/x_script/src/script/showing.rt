//! What a script is answered that asks to show a value.

ghost use Rattle.std.specs.Prelude.{◌≡◌, ◌<◌, true, length, IfOk, OnErr};
ghost use Rattle.x_streams.specs.Writing.{Adds};
ghost use Rattle.x_schema.specs.Schema.{IsTypeId};
ghost use Rattle.x_prelude.specs.Followed.{IsOver};
ghost use Rattle.x_script.specs.Answers.{Answer};
ghost use Rattle.x_script.specs.Commands.{bytes_of, is_hex};
ghost use Rattle.x_script.specs.Giving.{GivesBy};
ghost use Rattle.x_script.specs.Script.{AddsAnswer, TellsOver};
ghost use Rattle.x_session.specs.Session.{Compiles};
ghost use Rattle.x_script.specs.LineAnswers.{IsDumped, IsShownBy};
ghost use Rattle.x_script.specs.Refusals.{unknown_line};
ghost use Rattle.x_script.specs.Showing.{IsDumpAnswer, IsMessageAnswer, IsTypedAnswer, value_answer};
ghost use Rattle.x_script.specs.Situations.{situation};
ghost use Rattle.x_script.specs.declared.script.ScriptFile.{ScriptFile};

use super::answer::add_counted;
use super::command::message_bytes;
use super::refusal::LineRefusal;
use super::{ScriptFile, renew};
use std::alloc::Global;
use x_prelude::FollowedText;
use x_session::{Schema, SchemaFault, Session, Spot, TypeId};
use x_text::{NoMemory, Pen, Sink};
use x_value::{Dump, ReadCode, add_number, dump};

/// Adds the nodes of a value.
fn add_value<S: Sink>(dump: &Dump, pen: &mut Pen, sink: &mut S)
    ensures { Adds pen.old (S.state sink.old) pen.new (S.state sink.new) (value_answer dump.now) }
{
    add_counted("value", dump.len(), pen, sink);
    dump.add_lines(pen, sink);
}

/// Answers what value of the type the message is, and answers whether that refuses it. Without memory nothing
/// is done.
fn answer_message<S: Sink>(
    alloc: Global,
    schema: &Schema,
    id: TypeId,
    message: &[u8],
    pen: &mut Pen,
    sink: &mut S,
) -> Result<bool, NoMemory>
    requires { IsTypeId schema.now id }
    ensures told { IfOk result (λ refused. TellsOver (IsMessageAnswer schema.now id message.now) refused
        pen.old (S.state sink.old) pen.new (S.state sink.new)) }
    ensures same { OnErr result ((pen.new ≡ pen.old) × (sink.new ≡ sink.old)) }
{
    match dump(alloc, schema, id, message) {
        Ok(dump) => {
            add_value(&dump, pen, sink);
            Ok(false)
        }
        Err(fault) => {
            if fault.code == ReadCode::NoMemory {
                return Err(NoMemory);
            }
            fault.add_line(pen, sink);
            Ok(true)
        }
    }
}

/// Answers what value of the type of this name the message is, whose bytes these digits write, and answers
/// whether that refuses it. Without memory nothing is done.
fn answer_typed<S: Sink>(
    alloc: Global,
    schema: &Schema,
    name: &[u8],
    hex: &[u8],
    pen: &mut Pen,
    sink: &mut S,
) -> Result<bool, NoMemory>
    requires { 0 < length hex.now → is_hex hex.now ≡ true }
    ensures told { IfOk result
        (λ refused. TellsOver (IsTypedAnswer schema.now name.now (bytes_of hex.now)) refused
        pen.old (S.state sink.old) pen.new (S.state sink.new)) }
    ensures same { OnErr result ((pen.new ≡ pen.old) × (sink.new ≡ sink.old)) }
{
    let Some(id) = schema.type_named(name) else {
        LineRefusal::NoType.add_line(pen, sink);
        return Ok(true);
    };
    let message = message_bytes(alloc, hex)?;
    answer_message(alloc, schema, id, &message, pen, sink)
}

/// As [`answer_typed`], by the types of the session's text, which has some where it has no fault.
fn answer_by<S: Sink>(
    alloc: Global,
    session: &Session,
    name: &[u8],
    hex: &[u8],
    pen: &mut Pen,
    sink: &mut S,
) -> Result<bool, NoMemory>
    requires { 0 < length hex.now → is_hex hex.now ≡ true }
    ensures told { IfOk result (λ refused. Compiles session.now.known session.now.text (λ items. (a : Answer)
        × IsDumpAnswer session.now.known session.now.text items name.now (bytes_of hex.now) a
        × AddsAnswer a session.now.text refused pen.old (S.state sink.old) pen.new (S.state sink.new))) }
    ensures same { OnErr result ((pen.new ≡ pen.old) × (sink.new ≡ sink.old)) }
{
    match session.schema() {
        Ok(schema) => answer_typed(alloc, &schema, name, hex, pen, sink),
        Err(SchemaFault::Faulty) => {
            LineRefusal::Faulty.add_line(pen, sink);
            Ok(true)
        }
        Err(SchemaFault::NoMemory) => Err(NoMemory),
    }
}

/// Adds the answer that nothing is known of the name at a place.
#[tactic(auto, using(x_text::proofs::Adding::five))]
fn add_unknown<S: Sink>(spot: &Spot, pen: &mut Pen, sink: &mut S)
    ensures { Adds pen.old (S.state sink.old) pen.new (S.state sink.new) (unknown_line spot.now) }
{
    pen.add(b"refused 21 Unknown at ", sink);
    add_number(spot.line, pen, sink);
    pen.add(b":", sink);
    add_number(spot.column, pen, sink);
    pen.add(b"\n", sink);
}

/// As [`answer_by`], where the text is over what stands before it: of names that are taken from C and in no
/// table nothing can be read, so a type that leads to one is refused.
fn answer_over<S: Sink>(
    alloc: Global,
    text: &FollowedText,
    name: &[u8],
    hex: &[u8],
    pen: &mut Pen,
    sink: &mut S,
) -> Result<bool, NoMemory>
    requires hex { 0 < length hex.now → is_hex hex.now ≡ true }
    requires over { IsOver text.now }
    ensures told { (file : ScriptFile) → IfOk result
        (λ refused. Compiles text.now.session.known text.now.session.text (λ items. (a : Answer)
        × IsShownBy (situation file text.now).how text.now.session.known text.now.session.text items
        name.now (bytes_of hex.now) a
        × AddsAnswer a text.now.session.text refused pen.old (S.state sink.old) pen.new (S.state sink.new))) }
    ensures same { OnErr result ((pen.new ≡ pen.old) × (sink.new ≡ sink.old)) }
{
    if text.session.fault_count() > 0 {
        LineRefusal::Faulty.add_line(pen, sink);
        return Ok(true);
    }
    match text.foreign_use(name)? {
        Some(spot) => {
            add_unknown(&spot, pen, sink);
            Ok(true)
        }
        None => answer_by(alloc, &text.session, name, hex, pen, sink),
    }
}

/// Answers what value of the type of this name the message is, whose bytes these digits write, and answers
/// whether that refuses it: where known files use names of C that are in no table, it always does. Without
/// memory nothing is done.
pub(crate) fn answer_dump<S: Sink>(
    alloc: Global,
    text: &mut FollowedText,
    file: &ScriptFile,
    name: &[u8],
    hex: &[u8],
    pen: &mut Pen,
    sink: &mut S,
) -> Result<bool, NoMemory>
    requires hex { 0 < length hex.now → is_hex hex.now ≡ true }
    requires over { IsOver text.now }
    ensures over { IsOver text.new }
    ensures given { GivesBy (λ how here a. IsDumped how here name.now (bytes_of hex.now) a)
        (situation file.now text.old) (situation file.now text.new) result
        pen.old (S.state sink.old) pen.new (S.state sink.new) }
    ensures same { OnErr result ((pen.new ≡ pen.old) × (sink.new ≡ sink.old)) }
{
    if !file.is_plain {
        LineRefusal::Faulty.add_line(pen, sink);
        return Ok(true);
    }
    renew(text)?;
    answer_over(alloc, text, name, hex, pen, sink)
}
