//! What stands before a text that is opened.

ghost use Rattle.std.specs.Prelude.{◌≡◌, ◌<◌, ◌++◌, length, IfOk, IsErrOf};
ghost use Rattle.x_text.specs.Limits.{most_text};
ghost use Rattle.x_prelude.specs.Before.{IsKnownOf, IsOpenBy, IsOpenOver, IsPrelude};

use crate::definition::FromC;
use crate::followed::FollowedText;
use std::alloc::Global;
use x_compile::KnownDefinitions;
use x_hash::HashKey;
use x_session::Session;
use x_text::{MAX_TEXT, NoMemory, TextFault};

/// The definitions of a text, to be known before others.
pub(crate) fn known_of(alloc: Global, text: &[u8]) -> Result<KnownDefinitions, TextFault>
    ensures known { IfOk result (λ known. IsKnownOf text.now known) }
    ensures too_large { IsErrOf result TextFault.TooLarge → most_text < length text.now }
    ensures in_range { IsErrOf result TextFault.BadRange → ⊥ }
{
    if text.is_empty() {
        return Ok(KnownDefinitions::none());
    }
    let session = Session::open(alloc, b"", text)?;
    match session.into_known() {
        Ok(known) => Ok(known),
        Err(NoMemory) => Err(TextFault::NoMemory),
    }
}

/// Opens a text over the definitions of another.
pub(crate) fn open_over(
    alloc: Global,
    before: &[u8],
    hash_key: HashKey,
    base: &[u8],
    bytes: &[u8],
) -> Result<Session, TextFault>
    ensures { IsOpenOver before.now base.now bytes.now result }
{
    let known = known_of(alloc, before)?;
    Session::open_over(alloc, hash_key, known, base, bytes)
}

/// The same over those of two texts, one after the other.
pub(crate) fn open_over_both(
    alloc: Global,
    first: &[u8],
    second: &[u8],
    hash_key: HashKey,
    base: &[u8],
    bytes: &[u8],
) -> Result<Session, TextFault>
    ensures { IsOpenOver (first.now ++ second.now) base.now bytes.now result }
{
    match joined(alloc, first, second) {
        Ok(before) => open_over(alloc, &before, hash_key, base, bytes),
        Err(NoMemory) => Err(TextFault::NoMemory),
    }
}

/// Two texts, one after the other.
fn joined(alloc: Global, first: &[u8], second: &[u8]) -> Result<Vec<u8>, NoMemory>
    ensures { IfOk result (λ both. both.items ≡ first.now ++ second.now) }
{
    let mut both = Vec::with_capacity(alloc, first.len().saturating_add(second.len()))?;
    both.extend_from_slice(first)?;
    both.extend_from_slice(second)?;
    Ok(both)
}

/// The definitions that a text lacks behind the text of known files, as far as they may be taken from C.
///
/// # Errors
///
/// As [`open_by`].
pub fn lacking_text(
    alloc: Global,
    files: &[u8],
    from_c: FromC,
    bytes: &[u8],
) -> Result<Vec<u8>, TextFault>
    ensures lacking { IfOk result (λ lacking. IsPrelude files.now from_c bytes.now lacking.items) }
{
    let hash_key = HashKey::of_bytes(bytes);
    match FollowedText::open(alloc, files, from_c, hash_key, b"", bytes) {
        Ok(opened) => Ok(opened.lacking),
        Err(fault) => Err(fault),
    }
}

/// Opens a text over what stands before it: the text of known files, which has no fault, and then the
/// definitions that the text lacks, as far as they may be taken from C. `base` is the name that generated
/// texts use.
///
/// # Errors
///
/// The text, or what stands before it, is too large, or memory runs out.
pub fn open_by(
    alloc: Global,
    files: &[u8],
    from_c: FromC,
    hash_key: HashKey,
    base: &[u8],
    bytes: &[u8],
) -> Result<Session, TextFault>
    ensures { IsOpenBy files.now from_c base.now bytes.now result }
{
    if bytes.len() > MAX_TEXT {
        return Err(TextFault::TooLarge);
    }
    if !(from_c.types || from_c.foreign) {
        return open_over(alloc, files, hash_key, base, bytes);
    }
    match FollowedText::open(alloc, files, from_c, hash_key, base, bytes) {
        Ok(opened) => Ok(opened.session),
        Err(fault) => Err(fault),
    }
}
