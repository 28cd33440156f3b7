//! Adding to a text.

ghost use Rattle.std.specs.Prelude.{◌≡◌, ◌++◌, [], map, OnOk, IfOk};
ghost use Rattle.x_pieces.specs.Parts.{together};

use smallvec::SmallVec;
use std::alloc::Global;
use x_text::NoMemory;

/// Adds the parts, one behind another.
#[tactic(auto, using(crate::proofs::PartLemmas::behind_is))]
pub fn add(text: &mut Vec<u8>, parts: &[&[u8]]) -> Result<(), NoMemory>
    ensures { OnOk result (text.new.items ≡ text.old.items ++ together (map (λ p. p.now) parts.now)) }
{
    for part in parts {
        text.extend_from_slice(part)?;
    }
    Ok(())
}

/// What is made of parts: at most 48 bytes take no memory of their own.
pub type Made = SmallVec<u8, 48>;

/// The parts, one behind another.
pub fn made(alloc: Global, parts: &[&[u8]]) -> Result<Made, NoMemory>
    ensures { IfOk result (λ text. text.items ≡ together (map (λ p. p.now) parts.now)) }
{
    let mut text = Made::new(alloc);
    for part in parts {
        text.extend_from_slice(part)?;
    }
    Ok(text)
}
