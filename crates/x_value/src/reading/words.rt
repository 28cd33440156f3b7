//! Bodies of bytes (RFC 4506, section 3).
ghost use Rattle.std.specs.Prelude.{IfOk, IfErr};
ghost use Rattle.x_value.specs.Jobs.{BodyFault, BodyTaken};

use crate::fault::{ReadCode, ReadFault};
use x_units::{UNIT, is_zeros, split_body};

/// So many bytes, and what stands behind the zeros that fill their last unit up.
#[inline(always)]
pub(crate) fn body(len: u32, bytes: &[u8]) -> Result<(&[u8], &[u8]), ReadFault>
    ensures ok { IfOk result (λ r. BodyTaken len bytes.now r.0.now r.1.now) }
    ensures err { IfErr result (λ e. BodyFault len bytes.now e.at e.code) }
{
    let Some((body, filling, rest)) = split_body(len, bytes) else {
        return Err(ReadFault {
            at: bytes.len(),
            code: ReadCode::Short,
        });
    };
    if is_zeros(filling) {
        Ok((body, rest))
    } else {
        Err(ReadFault {
            at: body.len() - body.len() % UNIT,
            code: ReadCode::BadPad,
        })
    }
}
