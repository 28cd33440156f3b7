//! Which faults of a text are told.

ghost use Rattle.std.specs.Prelude.{◌≡◌, ◌&&◌, ℕ, List, IfOk, nat_lt, not, slice_range, true};
ghost use Rattle.std.specs.List.{filter, list_any};
ghost use Rattle.x_compile.specs.Compile.{Item, definitions_of, tokens_of};
ghost use Rattle.x_directives.specs.Branches.{SayBranchesOf};
ghost use Rattle.x_explain.specs.Found.{IsEndOfToken};
ghost use Rattle.x_names.specs.Declarers.{first_declarer};
ghost use Rattle.x_names.specs.DeclarerTable.{first_in};
ghost use Rattle.x_session.specs.Session.{Compiles};
ghost use Rattle.x_told.specs.Telling.{is_of_faulty, is_repeat, is_told_where, told_of, word_from};
ghost use Rattle.x_told.specs.Voices.{heard_with, is_of_branch_by, is_silent_voice, voice_at};

use std::alloc::Global;
use x_directives::LaterBranches;
use x_explain::{fault_places, token_end};
use x_names::Names;
use x_session::{FaultCode, FaultPlace, RuleCode, Session, names};
use x_text::NoMemory;

/// What is told of the faults of an item so far.
#[derive(Clone, Copy, Debug)]
enum Voice {
    /// It has none.
    Faultless,
    /// It has some, and none is told.
    Silent,
    /// One is told.
    Telling,
}

impl Voice {
    /// After another fault that is told, or is not.
    fn with(self, is_told: bool) -> Voice
        ensures { result ≡ heard_with is_told self }
    {
        match self {
            _ if is_told => Voice::Telling,
            Voice::Telling => Voice::Telling,
            Voice::Faultless | Voice::Silent => Voice::Silent,
        }
    }

    fn is_silent(self) -> bool
        ensures { result ≡ is_silent_voice self }
    {
        matches!(self, Voice::Silent)
    }
}

/// The faults that are told.
///
/// # Errors
///
/// [`NoMemory`] where a list could not grow.
pub(crate) fn told_faults(
    alloc: Global,
    blanks: bool,
    shown: &[u8],
    session: &Session,
) -> Result<Vec<FaultPlace>, NoMemory>
    ensures { IfOk result (λ told. Compiles session.now.known session.now.text (λ items.
        told.items ≡ told_of blanks shown.now items)) }
{
    let found = fault_places(alloc, session)?;
    if !blanks {
        return Ok(found);
    }
    let branches = LaterBranches::of(alloc, shown)?;
    if has_repeat(&branches, &found) && has_use_of_faulty(&found) {
        told_by_names(alloc, session, &branches)
    } else {
        without_repeats(alloc, &branches, &found)
    }
}

/// Whether a fault says that a name is declared twice.
fn is_repeat(code: FaultCode) -> bool
    ensures { result ≡ is_repeat code }
{
    match code {
        FaultCode::Syntax(_) => false,
        FaultCode::Rule(rule) => matches!(rule, RuleCode::Duplicate | RuleCode::RepeatedField),
    }
}

/// Whether a fault says so in a later branch of cpp, of which another may declare its name.
fn is_of_branch(branches: &LaterBranches, code: FaultCode, start: usize) -> bool
    ensures { result ≡ is_of_branch_by branches.now code start }
{
    is_repeat(code) && branches.has(start)
}

/// Whether a fault says that a name is used whose first declarer has faults.
pub(crate) fn is_of_faulty(code: FaultCode) -> bool
    ensures { result ≡ is_of_faulty code }
{
    matches!(code, FaultCode::Rule(RuleCode::UsesFaulty))
}

/// Whether one of the faults repeats a name in a later branch.
fn has_repeat(branches: &LaterBranches, found: &[FaultPlace]) -> bool
    ensures { result ≡ list_any (λ f. is_of_branch_by branches.now f.code f.start) found.now }
{
    for fault in found {
        if is_of_branch(branches, fault.code, fault.start) {
            return true;
        }
    }
    false
}

/// Whether one of the faults may follow from others.
fn has_use_of_faulty(found: &[FaultPlace]) -> bool
    ensures { result ≡ list_any (λ f. is_of_faulty f.code) found.now }
{
    for fault in found {
        if is_of_faulty(fault.code) {
            return true;
        }
    }
    false
}

/// The faults without those that repeat a name in a later branch.
fn without_repeats(
    alloc: Global,
    branches: &LaterBranches,
    found: &[FaultPlace],
) -> Result<Vec<FaultPlace>, NoMemory>
    ensures { IfOk result (λ told. told.items
        ≡ filter (λ f. not (is_of_branch_by branches.now f.code f.start)) found.now) }
{
    let mut told = Vec::with_capacity(alloc, found.len())?;
    for fault in found {
        if !is_of_branch(branches, fault.code, fault.start) {
            told.push(*fault)?;
        }
    }
    Ok(told)
}

/// The faults that are told, by the first declarers of the text's names.
fn told_by_names(
    alloc: Global,
    session: &Session,
    branches: &LaterBranches,
) -> Result<Vec<FaultPlace>, NoMemory>
    ensures { (shown : List ℕ) → SayBranchesOf branches.now shown
        → IfOk result (λ told. Compiles session.now.known session.now.text (λ items.
        told.items ≡ told_of true shown items)) }
{
    let text = session.bytes();
    let names = names(alloc, session)?;
    let mut voices = Vec::from_elem(alloc, Voice::Faultless, session.item_count())?;
    let mut told = Vec::new(alloc);
    for place in session.fault_places() {
        let end = token_end(text, place.start);
        let is_told = is_told(branches, &names, &voices, text, &place, end);
        let item = place.item as usize;
        voices[item] = voices[item].with(is_told);
        if is_told {
            told.push(place)?;
        }
    }
    Ok(told)
}

/// Whether a fault is told, of which the token ends at this place, by what is told of the items before it.
fn is_told(
    branches: &LaterBranches,
    names: &Names,
    voices: &[Voice],
    text: &[u8],
    place: &FaultPlace,
    end: usize,
) -> bool
    requires { IsEndOfToken text.now place.now.start end }
    ensures { (shown : List ℕ) → SayBranchesOf branches.now shown → (items : List Item)
        → ((name : List ℕ) → first_in names.now name ≡ first_declarer (definitions_of items) name)
        → slice_range text.now place.now.start end ≡ word_from (tokens_of items) place.now.start
        → result ≡ is_told_where shown items
        (λ item. nat_lt item place.now.item && is_silent_voice (voice_at voices.now item)) place.now }
{
    if is_of_branch(branches, place.code, place.start) {
        return false;
    }
    if !is_of_faulty(place.code) {
        return true;
    }
    match names.first(word_at(text, place.start, end)) {
        Some(first) => !is_silent_before(voices, place.item as usize, first.item),
        None => true,
    }
}

/// Whether an item is silent that comes before another one.
fn is_silent_before(voices: &[Voice], number: usize, item: usize) -> bool
    ensures { result ≡ nat_lt item number && is_silent_voice (voice_at voices.now item) }
{
    item < number && item < voices.len() && voices[item].is_silent()
}

/// The bytes of the token between two places.
pub fn word_at(text: &[u8], start: usize, end: usize) -> &[u8]
    requires { IsEndOfToken text.now start end }
    ensures { result.now ≡ slice_range text.now start end }
{
    if start <= end && end <= text.len() {
        &text[start..end]
    } else {
        &[]
    }
}
