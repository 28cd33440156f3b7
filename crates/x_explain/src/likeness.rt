//! How much alike a word and names are.

ghost use Rattle.std.specs.Cow.{cow_slice_items};
ghost use Rattle.std.specs.Prelude.{◌≡◌, IfOk, map, option_map};
ghost use Rattle.x_explain.specs.Suggestions.{HasBytes, distance, is_about_as_long, is_alike, is_near};
ghost use Rattle.x_explain.specs.Suggestions.{is_nearer, is_small, nearest, strange};

use std::alloc::Global;
use std::borrow::CowSlice;
use strsim::generic_damerau_levenshtein;
use x_text::NoMemory;

/// How long words and names are at most that are compared, in bytes.
const LONGEST: usize = 64;

/// A word that names are compared with, and which bytes stand in it.
#[derive(Clone, Copy, Debug)]
pub(crate) struct Word<'w> {
    bytes: &'w [u8],
    /// Of each byte, whether it stands in the word.
    has: [bool; 256],
    ghost known: { HasBytes has bytes.now },
}

impl<'w> Word<'w> {
    /// The word of these bytes.
    pub(crate) fn of(bytes: &'w [u8]) -> Word<'w>
        ensures { result.bytes.now ≡ bytes.now }
    {
        let mut has = [false; 256];
        for byte in bytes {
            has[usize::from(*byte)] = true;
        }
        Word { bytes, has }
    }

    /// How many bytes of a name are not in the word.
    fn strange_in(&self, name: &[u8]) -> usize
        ensures { result ≡ strange name.now self.now.bytes.now }
    {
        let mut count = 0;
        for byte in name {
            if !self.has[usize::from(*byte)] {
                count += 1;
            }
        }
        count
    }
}

/// The nearest of some names, of several at one distance the first.
pub(crate) fn nearest<'n>(
    alloc: Global,
    word: &Word,
    names: &'n [CowSlice<u8>],
) -> Result<Option<&'n [u8]>, NoMemory>
    ensures { IfOk result (λ found. option_map (λ n. n.now) found
        ≡ nearest word.now.bytes.now (map cow_slice_items names.now)) }
{
    let mut found: Option<&[u8]> = None;
    for index in (0..names.len()).rev() {
        let name: &[u8] = &names[index];
        if is_nearer(alloc, word, name, found)? {
            found = Some(name);
        }
    }
    Ok(found)
}

/// Whether a name is near, and no farther than another one.
fn is_nearer(
    alloc: Global,
    word: &Word,
    name: &[u8],
    other: Option<&[u8]>,
) -> Result<bool, NoMemory>
    ensures { IfOk result (λ nearer. nearer
        ≡ is_nearer word.now.bytes.now name.now (option_map (λ n. n.now) other.entry)) }
{
    if !is_near(alloc, word, name)? {
        return Ok(false);
    }
    match other {
        Some(other) => Ok(
            distance(alloc, word.bytes, name)? <= distance(alloc, word.bytes, other)?,
        ),
        None => Ok(true),
    }
}

/// Whether a name is at a distance of at most a third of the word's length.
fn is_near(alloc: Global, word: &Word, name: &[u8]) -> Result<bool, NoMemory>
    ensures { IfOk result (λ near. near ≡ is_near word.now.bytes.now name.now) }
{
    let bytes = word.bytes;
    if bytes.len() > LONGEST || name.len() > LONGEST || !is_about_as_long(bytes, name) {
        return Ok(false);
    }
    // Most names end here, without memory.
    if !is_alike(word, name) {
        return Ok(false);
    }
    Ok(is_small(bytes, distance(alloc, bytes, name)?))
}

/// Whether the lengths of a word and a name differ by at most a third of the word's.
fn is_about_as_long(word: &[u8], name: &[u8]) -> bool
    ensures { result ≡ is_about_as_long word.now name.now }
{
    is_small(word, word.len().saturating_sub(name.len()))
        && is_small(word, name.len().saturating_sub(word.len()))
}

/// Whether of a word and a name, at most a third of the word's length is not in the other, as of each near
/// name.
fn is_alike(word: &Word, name: &[u8]) -> bool
    ensures { result ≡ is_alike word.now.bytes.now name.now }
{
    // A word has a table of its bytes, and a name has none: most names end with the first.
    is_small(word.bytes, word.strange_in(name)) && is_small(word.bytes, strange(word.bytes, name))
}

/// How many bytes of a word are not in a name.
fn strange(word: &[u8], name: &[u8]) -> usize
    ensures { result ≡ strange word.now name.now }
{
    let mut count = 0;
    for byte in word {
        if !name.contains(byte) {
            count += 1;
        }
    }
    count
}

/// Whether these are at most a third as many as the bytes of a word.
fn is_small(word: &[u8], steps: usize) -> bool
    ensures { result ≡ is_small word.now steps }
{
    steps.saturating_mul(3) <= word.len()
}

/// In how many steps the name is made of the word: a byte is put in, left out or replaced, or two neighbours
/// are swapped.
fn distance(alloc: Global, word: &[u8], name: &[u8]) -> Result<usize, NoMemory>
    ensures { IfOk result (λ edits. edits ≡ distance word.now name.now) }
{
    Ok(generic_damerau_levenshtein(alloc, word, name)?)
}
