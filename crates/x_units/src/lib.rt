//! Units of four bytes (RFC 4506, section 3): words, the high byte first, and bodies of bytes with the zeros
//! that fill their last unit up.
#![tactic(auto)]

ghost use Rattle.std.specs.Prelude.{◌≡◌, ◌<◌, ◌^◌, ◌+◌, ◌++◌, length, IfSome, IfNone};
ghost use Rattle.x_units.specs.Units.{SplitsBody, are_zeros, padding, word};

use byteorder::{BigEndian, ByteOrder};

/// The bytes of a unit.
pub const UNIT: usize = 4;

/// The word at the front, and the bytes behind it (RFC 4506, section 4.2). There is none where fewer than
/// four bytes are left.
#[inline(always)]
pub fn split_word(bytes: &[u8]) -> Option<(u32, &[u8])>
    ensures some { IfSome result (λ r. (bytes.now ≡ word r.0 ++ r.1.now) × (r.0 < 2 ^ 32)) }
    ensures none { IfNone result (length bytes.now < 4) }
{
    if bytes.len() < UNIT {
        return None;
    }
    let (front, rest) = bytes.split_at(UNIT);
    Some((BigEndian::read_u32(front), rest))
}

/// A body of so many bytes, the bytes that fill its last unit up, which are to be zeros, and what stands
/// behind them (RFC 4506, section 4.10). There is none where the bytes end before.
#[inline(always)]
pub fn split_body(len: u32, bytes: &[u8]) -> Option<(&[u8], &[u8], &[u8])>
    ensures some { IfSome result (λ r. SplitsBody len bytes.now r.0.now r.1.now r.2.now) }
    ensures none { IfNone result (length bytes.now < len + padding len) }
{
    let size = len as usize;
    let filled = (UNIT - size % UNIT) % UNIT;
    if bytes.len() < size + filled {
        return None;
    }
    let (body, rest) = bytes.split_at(size);
    let (filling, rest) = rest.split_at(filled);
    Some((body, filling, rest))
}

/// Whether all bytes are zeros.
#[inline(always)]
pub fn is_zeros(bytes: &[u8]) -> bool
    ensures { result ≡ are_zeros bytes.now }
{
    bytes.iter().all(|byte| *byte == 0)
}
