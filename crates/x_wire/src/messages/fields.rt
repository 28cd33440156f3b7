//! The fields of headers (RFC 5531, section 8.2; RFC 4506, sections 4.2, 4.3 and 4.10).
ghost use Rattle.std.specs.Prelude.{ℕ, List, IfOk, IfErr};
ghost use Rattle.x_wire.specs.Headers.{Auth as AuthField};
ghost use Rattle.x_wire.specs.HeaderForms.{HeaderForm, number_form, state_form, length_form, body_form};
ghost use Rattle.x_wire.specs.HeaderForms.{auth_form, Reads, FormFault};
ghost use Rattle.x_wire.specs.Messages.{auth_of};

use super::parts::{Auth, MOST_AUTH_BYTES};
use x_units::{UNIT, is_zeros, split_body, split_word};
use x_value::ReadCode;

/// Why bytes are refused, and how many of them are left from the place on.
#[derive(Clone, Copy)]
pub(super) struct Refusal {
    pub(super) left: usize,
    pub(super) code: ReadCode,
}

/// The bytes end too early.
const CUT: Refusal = Refusal {
    left: 0,
    code: ReadCode::Short,
};

/// Any number.
pub(super) fn number(bytes: &[u8]) -> Result<(u32, &[u8]), Refusal>
    ensures ok { IfOk result (λ r. (on : ℕ → HeaderForm)
        → Reads (number_form on) bytes.now (on r.0) r.1.now) }
    ensures err { IfErr result (λ e. (on : ℕ → HeaderForm)
        → FormFault (number_form on) bytes.now e.left e.code) }
{
    match split_word(bytes) {
        Some((number, rest)) => Ok((number, rest)),
        None => Err(CUT),
    }
}

/// A number of an enum that is numbered from 0 to the last.
pub(super) fn state(last: u32, bytes: &[u8]) -> Result<(u32, &[u8]), Refusal>
    ensures ok { IfOk result (λ r. (on : ℕ → HeaderForm)
        → Reads (state_form last on) bytes.now (on r.0) r.1.now) }
    ensures err { IfErr result (λ e. (on : ℕ → HeaderForm)
        → FormFault (state_form last on) bytes.now e.left e.code) }
{
    let Some((state, rest)) = split_word(bytes) else {
        return Err(CUT);
    };
    if state > last {
        return Err(Refusal {
            left: bytes.len(),
            code: ReadCode::BadEnum,
        });
    }
    Ok((state, rest))
}

/// The length of a body.
fn body_length(bytes: &[u8]) -> Result<(u32, &[u8]), Refusal>
    ensures ok { IfOk result (λ r. (on : ℕ → HeaderForm)
        → Reads (length_form on) bytes.now (on r.0) r.1.now) }
    ensures err { IfErr result (λ e. (on : ℕ → HeaderForm)
        → FormFault (length_form on) bytes.now e.left e.code) }
{
    let Some((length, rest)) = split_word(bytes) else {
        return Err(CUT);
    };
    if length > MOST_AUTH_BYTES {
        return Err(Refusal {
            left: bytes.len(),
            code: ReadCode::TooMany,
        });
    }
    Ok((length, rest))
}

/// So many bytes, and what stands behind the zeros that fill their last unit up.
fn body(length: u32, bytes: &[u8]) -> Result<(&[u8], &[u8]), Refusal>
    ensures ok { IfOk result (λ r. (on : List ℕ → HeaderForm)
        → Reads (body_form length on) bytes.now (on r.0.now) r.1.now) }
    ensures err { IfErr result (λ e. (on : List ℕ → HeaderForm)
        → FormFault (body_form length on) bytes.now e.left e.code) }
{
    let Some((body, filling, rest)) = split_body(length, bytes) else {
        return Err(CUT);
    };
    if !is_zeros(filling) {
        return Err(Refusal {
            left: rest.len() + UNIT,
            code: ReadCode::BadPad,
        });
    }
    Ok((body, rest))
}

/// An authentication field.
pub(super) fn auth(bytes: &[u8]) -> Result<(Auth<'_>, &[u8]), Refusal>
    ensures ok { IfOk result (λ r. (on : AuthField → HeaderForm)
        → Reads (auth_form on) bytes.now (on (auth_of r.0)) r.1.now) }
    ensures err { IfErr result (λ e. (on : AuthField → HeaderForm)
        → FormFault (auth_form on) bytes.now e.left e.code) }
{
    let (flavor, rest) = number(bytes)?;
    let (length, rest) = body_length(rest)?;
    let (body, rest) = body(length, rest)?;
    Ok((Auth { flavor, body }, rest))
}
