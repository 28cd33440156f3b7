//! What undeclared words of a text may have been meant as.

ghost use Rattle.std.specs.Cow.{cow_slice_items};
ghost use Rattle.std.specs.Prelude.{◌≡◌, ◌≤◌, ◌++◌, IfOk, OnOk, length, map, option_map, take};
ghost use Rattle.x_trees.specs.Names.{declared};
ghost use Rattle.x_trees.specs.Spell.{IsShort};
ghost use Rattle.x_trees.specs.View.{view_definition};
ghost use Rattle.x_compile.specs.Compile.{definitions_of, places_of};
ghost use Rattle.x_session.specs.Session.{Compiles};
ghost use Rattle.x_explain.specs.Found.{AreFound};
ghost use Rattle.x_explain.specs.Suggestions.{AreSuggested, compared, is_bool, is_hyper, is_int, is_unknown};
ghost use Rattle.x_explain.specs.Suggestions.{is_unsigned_hyper, is_unsigned_int, is_unsigned_long};
ghost use Rattle.x_explain.specs.Suggestions.{is_unsigned_of_width, sought, suggested, suggested_at};
ghost use Rattle.x_explain.specs.Suggestions.{suggestion, type_of_c, view_suggestion};

use crate::found::{FoundFault, found_at, word_at};
use crate::likeness::{Word, nearest};
use std::alloc::Global;
use std::borrow::CowSlice;
use x_item::{Definition, declares};
use x_session::{FaultCode, FaultPlace, RuleCode, Session};
use x_text::NoMemory;

/// For how many undeclared words of a text something is suggested.
const MOST_WORDS: usize = 16;

/// With how many of its names they are compared.
const MOST_NAMES: usize = 1024;

/// What is suggested for an undeclared word.
#[derive(Debug, Drop)]
struct Suggestion {
    /// Where the word starts.
    start: usize,
    name: Option<Vec<u8>>,
}

/// What is suggested for the first undeclared words of a text: the first 16, each compared with the first
/// 1024 names that the text declares, so that this takes little time whatever the text is.
#[derive(Debug, Drop)]
pub struct Suggestions {
    list: Vec<Suggestion>,
}

impl Suggestions {
    /// What is suggested for the words of a text.
    ///
    /// # Errors
    ///
    /// [`NoMemory`] where a list could not grow.
    pub fn of(alloc: Global, session: &Session) -> Result<Suggestions, NoMemory>
        ensures { IfOk result (λ suggestions. Compiles session.now.known session.now.text
            (λ items. AreSuggested session.now.text items (map view_suggestion suggestions.list.items))) }
    {
        let found = unknown_words(alloc, session)?;
        if found.is_empty() {
            return Ok(Suggestions {
                list: Vec::new(alloc),
            });
        }
        let names = compared_names(alloc, session)?;
        let list = suggested(alloc, session.bytes(), &names, &found)?;
        Ok(Suggestions { list })
    }

    /// What is suggested for the word that starts at a place.
    pub fn at(&self, start: usize) -> Option<&[u8]>
        ensures { option_map (λ n. n.now) result
            ≡ suggested_at (map view_suggestion self.now.list.items) start }
    {
        for suggestion in &self.list {
            if suggestion.start == start {
                return match &suggestion.name {
                    Some(name) => Some(name),
                    None => None,
                };
            }
        }
        None
    }
}

/// The undeclared words for which something is suggested.
fn unknown_words(alloc: Global, session: &Session) -> Result<Vec<FoundFault>, NoMemory>
    ensures { IfOk result (λ found. Compiles session.now.known session.now.text
        (λ items. AreFound session.now.text (sought (places_of items)) found.items)) }
{
    let places = sought(alloc, session)?;
    found_at(alloc, session.bytes(), &places)
}

/// Their places.
fn sought(alloc: Global, session: &Session) -> Result<Vec<FaultPlace>, NoMemory>
    ensures { IfOk result (λ places. Compiles session.now.known session.now.text
        (λ items. places.items ≡ sought (places_of items))) }
{
    let mut places = Vec::new(alloc);
    for place in session.fault_places() {
        if places.len() >= MOST_WORDS {
            // Nothing behind is looked at, however many faults there are.
            return Ok(places);
        }
        if is_unknown(place.code) {
            places.push(place)?;
        }
    }
    Ok(places)
}

/// Whether the word of a fault is not declared.
pub(crate) fn is_unknown(code: FaultCode) -> bool
    ensures { result ≡ is_unknown code }
{
    matches!(code, FaultCode::Rule(RuleCode::Unknown))
}

/// The names of a text that words are compared with.
fn compared_names(alloc: Global, session: &Session) -> Result<Vec<CowSlice<'_, u8>>, NoMemory>
    ensures { IfOk result (λ names. Compiles session.now.known session.now.text
        (λ items. map cow_slice_items names.items ≡ compared (definitions_of items))) }
{
    // So many tokens fit, and no definition has more words.
    let _ = session.token_count();
    let mut names = Vec::new(alloc);
    for item in 0..session.item_count() {
        if names.len() >= MOST_NAMES {
            // Nothing behind is looked at, however many definitions there are.
            return Ok(names);
        }
        if let Some(definition) = session.definition(item) {
            add_names(alloc, &mut names, definition)?;
        }
    }
    Ok(names)
}

/// Adds the names that a definition declares, as long as there are not too many.
fn add_names<'d>(
    alloc: Global,
    names: &mut Vec<CowSlice<'d, u8>>,
    definition: &'d Definition,
) -> Result<(), NoMemory>
    ensures { OnOk result (IsShort (view_definition definition.now) → length names.old.items ≤ 1024
        → (length names.new.items ≤ 1024)
        × (map cow_slice_items names.new.items ≡ take 1024 (map cow_slice_items names.old.items
        ++ map (λ n. n.name) (declared (view_definition definition.now))))) }
{
    if names.len() >= MOST_NAMES {
        return Ok(());
    }
    for declared in declares(alloc, definition)? {
        if names.len() < MOST_NAMES {
            names.push(declared.name)?;
        }
    }
    Ok(())
}

/// What is suggested for words of a text.
fn suggested(
    alloc: Global,
    text: &[u8],
    names: &[CowSlice<u8>],
    found: &[FoundFault],
) -> Result<Vec<Suggestion>, NoMemory>
    ensures { IfOk result (λ list. map view_suggestion list.items
        ≡ map (suggested text.now (map cow_slice_items names.now)) found.now) }
{
    let mut list = Vec::with_capacity(alloc, found.len())?;
    for word in found {
        list.push(Suggestion {
            start: word.start,
            name: suggestion_for(alloc, word_at(text, word.start, word.end), names)?,
        })?;
    }
    Ok(list)
}

/// What is suggested for a word.
fn suggestion_for(
    alloc: Global,
    word: &[u8],
    names: &[CowSlice<u8>],
) -> Result<Option<Vec<u8>>, NoMemory>
    ensures { IfOk result (λ name. option_map (λ v. v.items) name
        ≡ suggestion word.now (map cow_slice_items names.now)) }
{
    if let Some(name) = type_of_c(word) {
        return Ok(Some(owned(alloc, name.as_bytes())?));
    }
    match nearest(alloc, &Word::of(word), names)? {
        Some(name) => Ok(Some(owned(alloc, name)?)),
        None => Ok(None),
    }
}

/// A copy of bytes.
fn owned(alloc: Global, bytes: &[u8]) -> Result<Vec<u8>, NoMemory>
    ensures { IfOk result (λ copy. copy.items ≡ bytes.now) }
{
    let mut copy = Vec::with_capacity(alloc, bytes.len())?;
    copy.extend_from_slice(bytes)?;
    Ok(copy)
}

/// The type that is on the wire what the XDR routine of a type of C with this name writes.
fn type_of_c(word: &[u8]) -> Option<&'static str>
    ensures { option_map (λ n. n.now) result ≡ type_of_c word.now }
{
    if is_int(word) {
        Some("int")
    } else if is_unsigned_int(word) {
        Some("unsigned int")
    } else if is_unsigned_long(word) {
        Some("unsigned long")
    } else if is_hyper(word) {
        Some("hyper")
    } else if is_unsigned_hyper(word) {
        Some("unsigned hyper")
    } else if is_bool(word) {
        Some("bool")
    } else {
        None
    }
}

fn is_int(word: &[u8]) -> bool
    ensures { result ≡ is_int word.now }
{
    word == b"int32_t".as_slice() || word == b"int16_t".as_slice() || word == b"short".as_slice()
}

fn is_unsigned_of_width(word: &[u8]) -> bool
    ensures { result ≡ is_unsigned_of_width word.now }
{
    word == b"uint32_t".as_slice()
        || word == b"u_int32_t".as_slice()
        || word == b"uint16_t".as_slice()
        || word == b"u_int16_t".as_slice()
}

fn is_unsigned_int(word: &[u8]) -> bool
    ensures { result ≡ is_unsigned_int word.now }
{
    word == b"u_int".as_slice()
        || word == b"uint".as_slice()
        || word == b"u_short".as_slice()
        || word == b"ushort".as_slice()
        || is_unsigned_of_width(word)
}

fn is_unsigned_long(word: &[u8]) -> bool
    ensures { result ≡ is_unsigned_long word.now }
{
    word == b"u_long".as_slice() || word == b"ulong".as_slice()
}

fn is_hyper(word: &[u8]) -> bool
    ensures { result ≡ is_hyper word.now }
{
    word == b"int64_t".as_slice()
        || word == b"longlong_t".as_slice()
        || word == b"quad_t".as_slice()
}

fn is_unsigned_hyper(word: &[u8]) -> bool
    ensures { result ≡ is_unsigned_hyper word.now }
{
    word == b"uint64_t".as_slice()
        || word == b"u_int64_t".as_slice()
        || word == b"u_longlong_t".as_slice()
        || word == b"u_quad_t".as_slice()
}

fn is_bool(word: &[u8]) -> bool
    ensures { result ≡ is_bool word.now }
{
    word == b"bool_t".as_slice() || word == b"boolean".as_slice()
}
