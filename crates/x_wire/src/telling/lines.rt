//! The lines that headers and their faults are written as.
ghost use Rattle.std.specs.Prelude.{◌≡◌, ◌++◌, codes, decimal};
ghost use Rattle.x_streams.specs.Writing.{Adds};
ghost use Rattle.x_wire.specs.Messages.{accept_of, auth_of, reject_of};
ghost use Rattle.x_wire.specs.MessageTexts.{accept_details, accept_name, bounds_line, call_number};
ghost use Rattle.x_wire.specs.MessageTexts.{auth_line, bad_header_line, call_line, raw_line, reply_line};
ghost use Rattle.x_wire.specs.MessageTexts.{reject_details, reject_name};
ghost use Rattle.x_wire.specs.StreamTexts.{record_line};

use super::heading::Heading;
use crate::{AcceptStat, Auth, Call, RecordFault, RejectStat};
use itoa::Integer;
use x_text::{Pen, Sink};
use x_value::{ReadFault, add_hex, add_number};

/// Adds two numbers, each behind its words.
#[tactic(auto, using(x_text::proofs::Adding::four))]
fn add_numbers<I: Integer, S: Sink>(
    before: &str,
    first: I,
    between: &str,
    second: u32,
    pen: &mut Pen,
    sink: &mut S,
)
    ensures { Adds pen.old (S.state sink.old) pen.new (S.state sink.new)
        (before.now ++ I.text first ++ between.now ++ decimal second) }
{
    pen.add(before.as_bytes(), sink);
    add_number(first, pen, sink);
    pen.add(between.as_bytes(), sink);
    add_number(second, pen, sink);
}

/// Adds the name of a procedure at the end of its line.
#[tactic(auto, using(x_text::proofs::Adding::three))]
fn add_name<S: Sink>(name: &[u8], pen: &mut Pen, sink: &mut S)
    ensures { Adds pen.old (S.state sink.old) pen.new (S.state sink.new)
        (codes " " ++ name.now ++ codes "\n") }
{
    pen.add(b" ", sink);
    pen.add(name, sink);
    pen.add(b"\n", sink);
}

/// Adds the line of an authentication field.
#[tactic(auto, using(x_text::proofs::Adding::six))]
fn add_auth<S: Sink>(word: &str, auth: &Auth, pen: &mut Pen, sink: &mut S)
    ensures { Adds pen.old (S.state sink.old) pen.new (S.state sink.new)
        (auth_line word.now (auth_of auth.now)) }
{
    pen.add(word.as_bytes(), sink);
    pen.add(b" ", sink);
    add_number(auth.flavor, pen, sink);
    pen.add(b" ", sink);
    add_hex(auth.body, pen, sink);
    pen.add(b"\n", sink);
}

/// Adds the first line of a call.
#[tactic(auto, using(x_text::proofs::Adding::four))]
fn add_call_line<S: Sink>(heading: &Heading, call: &Call, pen: &mut Pen, sink: &mut S)
    ensures { Adds pen.old (S.state sink.old) pen.new (S.state sink.new)
        (call_line heading.now.id.number heading.now.id.xid
        call.now.rpcvers call.now.prog call.now.vers call.now.proc heading.now.name.now) }
{
    let id = heading.id;
    add_numbers("# ", id.number, " call xid=", id.xid, pen, sink);
    add_numbers(" rpcvers=", call.rpcvers, " prog=", call.prog, pen, sink);
    add_numbers(" vers=", call.vers, " proc=", call.proc, pen, sink);
    add_name(heading.name, pen, sink);
}

/// Adds the lines of a call's header.
#[tactic(auto, using(x_text::proofs::Adding::three))]
pub(super) fn add_call<S: Sink>(heading: &Heading, call: &Call, pen: &mut Pen, sink: &mut S)
    ensures { Adds pen.old (S.state sink.old) pen.new (S.state sink.new)
        (call_line heading.now.id.number heading.now.id.xid
        call.now.rpcvers call.now.prog call.now.vers call.now.proc heading.now.name.now
        ++ auth_line (codes "cred") (auth_of call.now.cred)
        ++ auth_line (codes "verf") (auth_of call.now.verf)) }
{
    add_call_line(heading, call, pen, sink);
    add_auth("cred", &call.cred, pen, sink);
    add_auth("verf", &call.verf, pen, sink);
}

/// Adds the number of the call that a reply belongs to.
fn add_call_number<S: Sink>(call: Option<u64>, pen: &mut Pen, sink: &mut S)
    ensures { Adds pen.old (S.state sink.old) pen.new (S.state sink.new) (call_number call) }
{
    match call {
        Some(number) => add_number(number, pen, sink),
        None => pen.add(b"none", sink),
    }
}

/// Adds one word right behind another.
#[tactic(auto, using(x_text::proofs::Adding::two))]
fn add_words<S: Sink>(first: &str, second: &str, pen: &mut Pen, sink: &mut S)
    ensures { Adds pen.old (S.state sink.old) pen.new (S.state sink.new) (first.now ++ second.now) }
{
    pen.add(first.as_bytes(), sink);
    pen.add(second.as_bytes(), sink);
}

/// Adds what became of a call, and the number of the call.
#[tactic(auto, using(x_text::proofs::Adding::four))]
fn add_state<S: Sink>(word: &str, state: &str, call: Option<u64>, pen: &mut Pen, sink: &mut S)
    ensures { Adds pen.old (S.state sink.old) pen.new (S.state sink.new)
        (codes " " ++ (word.now ++ state.now) ++ codes " call=" ++ call_number call) }
{
    pen.add(b" ", sink);
    add_words(word, state, pen, sink);
    pen.add(b" call=", sink);
    add_call_number(call, pen, sink);
}

/// Adds the first line of a reply.
#[tactic(auto, using(x_text::proofs::Adding::three))]
fn add_reply_line<S: Sink>(heading: &Heading, word: &str, state: &str, pen: &mut Pen, sink: &mut S)
    ensures { Adds pen.old (S.state sink.old) pen.new (S.state sink.new)
        (reply_line heading.now.id.number heading.now.id.xid (word.now ++ state.now)
        heading.now.call heading.now.name.now) }
{
    let id = heading.id;
    add_numbers("# ", id.number, " reply xid=", id.xid, pen, sink);
    add_state(word, state, heading.call, pen, sink);
    add_name(heading.name, pen, sink);
}

/// Adds the line with the lowest and the highest version.
#[tactic(auto, using(x_text::proofs::Adding::two))]
fn add_bounds<S: Sink>(low: u32, high: u32, pen: &mut Pen, sink: &mut S)
    ensures { Adds pen.old (S.state sink.old) pen.new (S.state sink.new) (bounds_line low high) }
{
    add_numbers("low ", low, " high ", high, pen, sink);
    pen.add(b"\n", sink);
}

/// Adds the line that a state of a call calls for, if it does.
fn add_accept_details<S: Sink>(stat: &AcceptStat, pen: &mut Pen, sink: &mut S)
    ensures { Adds pen.old (S.state sink.old) pen.new (S.state sink.new)
        (accept_details (accept_of stat.now)) }
{
    if let AcceptStat::ProgMismatch { low, high } = stat {
        add_bounds(*low, *high, pen, sink);
    } else {
        pen.add(b"", sink);
    }
}

/// Adds the lines of the header of a reply that was accepted.
#[tactic(auto, using(x_text::proofs::Adding::three))]
pub(super) fn add_accepted<S: Sink>(
    heading: &Heading,
    verf: &Auth,
    stat: &AcceptStat,
    pen: &mut Pen,
    sink: &mut S,
)
    ensures { Adds pen.old (S.state sink.old) pen.new (S.state sink.new)
        (reply_line heading.now.id.number heading.now.id.xid
        (codes "accepted " ++ accept_name (accept_of stat.now)) heading.now.call heading.now.name.now
        ++ auth_line (codes "verf") (auth_of verf.now) ++ accept_details (accept_of stat.now)) }
{
    add_reply_line(heading, "accepted ", stat.text(), pen, sink);
    add_auth("verf", verf, pen, sink);
    add_accept_details(stat, pen, sink);
}

/// Adds the line with the reason of a denial.
#[tactic(auto, using(x_text::proofs::Adding::three))]
fn add_auth_stat<S: Sink>(stat: u32, pen: &mut Pen, sink: &mut S)
    ensures { Adds pen.old (S.state sink.old) pen.new (S.state sink.new)
        (codes "auth_stat " ++ decimal stat ++ codes "\n") }
{
    pen.add(b"auth_stat ", sink);
    add_number(stat, pen, sink);
    pen.add(b"\n", sink);
}

/// Adds the line that the reason of a denial calls for.
fn add_reject_details<S: Sink>(stat: &RejectStat, pen: &mut Pen, sink: &mut S)
    ensures { Adds pen.old (S.state sink.old) pen.new (S.state sink.new)
        (reject_details (reject_of stat.now)) }
{
    match stat {
        RejectStat::RpcMismatch { low, high } => add_bounds(*low, *high, pen, sink),
        RejectStat::AuthError { auth_stat } => add_auth_stat(*auth_stat, pen, sink),
    }
}

/// Adds the lines of a reply that was denied.
#[tactic(auto, using(x_text::proofs::Adding::two))]
pub(super) fn add_denied<S: Sink>(heading: &Heading, stat: &RejectStat, pen: &mut Pen, sink: &mut S)
    ensures { Adds pen.old (S.state sink.old) pen.new (S.state sink.new)
        (reply_line heading.now.id.number heading.now.id.xid
        (codes "denied " ++ reject_name (reject_of stat.now)) heading.now.call heading.now.name.now
        ++ reject_details (reject_of stat.now)) }
{
    add_reply_line(heading, "denied ", stat.text(), pen, sink);
    add_reject_details(stat, pen, sink);
}

/// Adds bytes that are not read.
#[tactic(auto, using(x_text::proofs::Adding::three))]
pub(super) fn add_raw<S: Sink>(bytes: &[u8], pen: &mut Pen, sink: &mut S)
    ensures { Adds pen.old (S.state sink.old) pen.new (S.state sink.new) (raw_line bytes.now) }
{
    pen.add(b"raw ", sink);
    add_hex(bytes, pen, sink);
    pen.add(b"\n", sink);
}

/// Adds the line of a message whose header is refused.
#[tactic(auto, using(x_text::proofs::Adding::four))]
fn add_bad_header_line<S: Sink>(number: u64, fault: &ReadFault, pen: &mut Pen, sink: &mut S)
    ensures { Adds pen.old (S.state sink.old) pen.new (S.state sink.new)
        (bad_header_line number fault.now.at fault.now.code) }
{
    pen.add(b"# ", sink);
    add_number(number, pen, sink);
    pen.add(b" ", sink);
    fault.add_line(pen, sink);
}

/// Adds the lines of a message whose header is refused.
#[tactic(auto, using(x_text::proofs::Adding::two))]
pub(super) fn add_bad_header<S: Sink>(
    number: u64,
    fault: &ReadFault,
    message: &[u8],
    pen: &mut Pen,
    sink: &mut S,
)
    ensures { Adds pen.old (S.state sink.old) pen.new (S.state sink.new)
        (bad_header_line number fault.now.at fault.now.code ++ raw_line message.now) }
{
    add_bad_header_line(number, fault, pen, sink);
    add_raw(message, pen, sink);
}

/// Adds the line of a stream that is refused.
#[tactic(auto, using(x_text::proofs::Adding::five))]
pub(super) fn add_record_fault<S: Sink>(fault: RecordFault, pen: &mut Pen, sink: &mut S)
    ensures { Adds pen.old (S.state sink.old) pen.new (S.state sink.new) (record_line fault) }
{
    pen.add(b"fault ", sink);
    pen.add(fault.code.text().as_bytes(), sink);
    pen.add(b" at ", sink);
    add_number(fault.at, pen, sink);
    pen.add(b"\n", sink);
}
