//! Reads the header of a message.
ghost use Rattle.std.specs.Prelude.{◌≡◌, ℕ, [], IfOk, IfErr};
ghost use Rattle.x_wire.specs.Headers.{Auth as AuthField, Header, Accepted, Denied, IsBare, IsMessage};
ghost use Rattle.x_wire.specs.HeaderFaults.{IsHeaderFault};
ghost use Rattle.x_wire.specs.HeaderForms.{Whole, bounds_form, call_form, accept_form, accepted_form};
ghost use Rattle.x_wire.specs.HeaderForms.{reject_form, denied_form, reply_form, kind_form, header_form};
ghost use Rattle.x_wire.specs.HeaderForms.{Reads, FormFault};
ghost use Rattle.x_wire.specs.Messages.{accept_of, results_of, reject_of, header_of_reply, body_of_reply};
ghost use Rattle.x_wire.specs.Messages.{header_of_kind, body_of_kind, header_of, body_of};

use super::fields::{Refusal, auth, number, state};
use super::parts::{AcceptStat, Call, Message, MessageKind, RejectStat, Reply};
use x_value::{ReadCode, ReadFault};

/// `msg_type` is 0 for a call and 1 for a reply.
const LAST_MSG_TYPE: u32 = 1;

/// `reply_stat` is 0 where the call was accepted, and 1 where it was denied.
const LAST_REPLY_STAT: u32 = 1;

/// `accept_stat` numbers the states of [`AcceptStat`] in their order, from 0.
const LAST_ACCEPT_STAT: u32 = 5;

/// `reject_stat` numbers the reasons of [`RejectStat`] in their order, from 0.
const LAST_REJECT_STAT: u32 = 1;

/// Nothing may stand behind the header.
fn end(bytes: &[u8]) -> Result<(), Refusal>
    ensures ok { IfOk result (λ _. bytes.now ≡ []) }
    ensures err { IfErr result (λ e. (h : Header) → IsBare h → FormFault (Whole h) bytes.now e.left e.code) }
{
    if bytes.is_empty() {
        Ok(())
    } else {
        Err(Refusal {
            left: bytes.len(),
            code: ReadCode::Trailing,
        })
    }
}

/// The lowest and the highest version, at the end of a message.
fn bounds(bytes: &[u8]) -> Result<(u32, u32), Refusal>
    ensures ok { IfOk result (λ r. (on : ℕ → ℕ → Header)
        → Reads (bounds_form on) bytes.now (Whole (on r.0 r.1)) []) }
    ensures err { IfErr result (λ e. (on : ℕ → ℕ → Header) → ((low high : ℕ) → IsBare (on low high))
        → FormFault (bounds_form on) bytes.now e.left e.code) }
{
    let (low, rest) = number(bytes)?;
    let (high, rest) = number(rest)?;
    end(rest)?;
    Ok((low, high))
}

/// What became of a call that was accepted, by the number of the state.
fn accept_stat(number: u32, bytes: &[u8]) -> Result<AcceptStat<'_>, Refusal>
    ensures ok { IfOk result (λ r. (xid : ℕ) (verf : AuthField)
        → Reads (accept_form xid verf number) bytes.now (Whole (Accepted xid verf (accept_of r)))
        (results_of r)) }
    ensures err { IfErr result (λ e. (xid : ℕ) (verf : AuthField)
        → FormFault (accept_form xid verf number) bytes.now e.left e.code) }
{
    if number == 0 {
        return Ok(AcceptStat::Success { body: bytes });
    }
    if number == 2 {
        let (low, high) = bounds(bytes)?;
        return Ok(AcceptStat::ProgMismatch { low, high });
    }
    end(bytes)?;
    match number {
        1 => Ok(AcceptStat::ProgUnavail),
        3 => Ok(AcceptStat::ProcUnavail),
        4 => Ok(AcceptStat::GarbageArgs),
        _ => Ok(AcceptStat::SystemErr),
    }
}

/// A reply of a server that took the call.
fn accepted(bytes: &[u8]) -> Result<Reply<'_>, Refusal>
    ensures ok { IfOk result (λ r. (xid : ℕ)
        → Reads (accepted_form xid) bytes.now (Whole (header_of_reply xid r)) (body_of_reply r)) }
    ensures err { IfErr result (λ e. (xid : ℕ) → FormFault (accepted_form xid) bytes.now e.left e.code) }
{
    let (verf, rest) = auth(bytes)?;
    let (number, rest) = state(LAST_ACCEPT_STAT, rest)?;
    let stat = accept_stat(number, rest)?;
    Ok(Reply::Accepted { verf, stat })
}

/// Why a call was denied, by the number of the reason.
fn reject_stat(reason: u32, bytes: &[u8]) -> Result<RejectStat, Refusal>
    ensures ok { IfOk result (λ r. (xid : ℕ)
        → Reads (reject_form xid reason) bytes.now (Whole (Denied xid (reject_of r))) []) }
    ensures err { IfErr result (λ e. (xid : ℕ) → FormFault (reject_form xid reason) bytes.now e.left e.code) }
{
    if reason == 0 {
        let (low, high) = bounds(bytes)?;
        return Ok(RejectStat::RpcMismatch { low, high });
    }
    let (auth_stat, rest) = number(bytes)?;
    end(rest)?;
    Ok(RejectStat::AuthError { auth_stat })
}

/// A reply of a server that did not.
fn denied(bytes: &[u8]) -> Result<Reply<'_>, Refusal>
    ensures ok { IfOk result (λ r. (xid : ℕ)
        → Reads (denied_form xid) bytes.now (Whole (header_of_reply xid r)) (body_of_reply r)) }
    ensures err { IfErr result (λ e. (xid : ℕ) → FormFault (denied_form xid) bytes.now e.left e.code) }
{
    let (reason, rest) = state(LAST_REJECT_STAT, bytes)?;
    let stat = reject_stat(reason, rest)?;
    Ok(Reply::Denied(stat))
}

/// A call.
fn call(bytes: &[u8]) -> Result<Call<'_>, Refusal>
    ensures ok { IfOk result (λ c. (xid : ℕ)
        → Reads (call_form xid) bytes.now (Whole (header_of_kind xid (MessageKind.Call c))) c.body.now) }
    ensures err { IfErr result (λ e. (xid : ℕ) → FormFault (call_form xid) bytes.now e.left e.code) }
{
    let (rpcvers, rest) = number(bytes)?;
    let (prog, rest) = number(rest)?;
    let (vers, rest) = number(rest)?;
    let (proc, rest) = number(rest)?;
    let (cred, rest) = auth(rest)?;
    let (verf, body) = auth(rest)?;
    Ok(Call {
        rpcvers,
        prog,
        vers,
        proc,
        cred,
        verf,
        body,
    })
}

/// A reply, by the number of its state.
fn reply(number: u32, bytes: &[u8]) -> Result<Reply<'_>, Refusal>
    ensures ok { IfOk result (λ r. (xid : ℕ)
        → Reads (reply_form xid number) bytes.now (Whole (header_of_reply xid r)) (body_of_reply r)) }
    ensures err { IfErr result (λ e. (xid : ℕ) → FormFault (reply_form xid number) bytes.now e.left e.code) }
{
    if number == 0 {
        accepted(bytes)
    } else {
        denied(bytes)
    }
}

/// A call or a reply, by the number of its type.
fn kind(number: u32, bytes: &[u8]) -> Result<MessageKind<'_>, Refusal>
    ensures ok { IfOk result (λ r. (xid : ℕ)
        → Reads (kind_form xid number) bytes.now (Whole (header_of_kind xid r)) (body_of_kind r)) }
    ensures err { IfErr result (λ e. (xid : ℕ) → FormFault (kind_form xid number) bytes.now e.left e.code) }
{
    if number == 0 {
        return Ok(MessageKind::Call(call(bytes)?));
    }
    let (number, rest) = state(LAST_REPLY_STAT, bytes)?;
    Ok(MessageKind::Reply(reply(number, rest)?))
}

/// A whole message.
fn whole_message(bytes: &[u8]) -> Result<Message<'_>, Refusal>
    ensures ok { IfOk result (λ m. Reads header_form bytes.now (Whole (header_of m)) (body_of m)) }
    ensures err { IfErr result (λ e. FormFault header_form bytes.now e.left e.code) }
{
    let (xid, rest) = number(bytes)?;
    let (number, rest) = state(LAST_MSG_TYPE, rest)?;
    let kind = kind(number, rest)?;
    Ok(Message { xid, kind })
}

/// The message that the bytes are (RFC 5531, section 9). The body of a call, or of a reply that is a success,
/// is all that stands behind its header.
///
/// # Errors
///
/// The place, in bytes from the first, and the reason: [`ReadCode::Trailing`] where bytes stand behind a
/// reply that is no success; else [`ReadCode::BadEnum`], [`ReadCode::TooMany`] or [`ReadCode::BadPad`] at the
/// first unit of four bytes to whose end the bytes begin no header; else [`ReadCode::Short`] at their end.
pub fn message(bytes: &[u8]) -> Result<Message<'_>, ReadFault>
    ensures ok { IfOk result (λ m. IsMessage bytes.now (header_of m) (body_of m)) }
    ensures err { IfErr result (λ e. IsHeaderFault bytes.now e.at e.code) }
    ensures memory { IfErr result (λ e. e.code ≡ ReadCode.NoMemory → ⊥) }
{
    match whole_message(bytes) {
        Ok(message) => Ok(message),
        Err(refusal) => Err(ReadFault {
            at: bytes.len() - refusal.left,
            code: refusal.code,
        }),
    }
}
