//! Other places that matter to the faults of a text.

ghost use Rattle.std.specs.Prelude.{◌≡◌, ℕ, IfOk, List, option_map};
ghost use Rattle.x_lex.specs.declared.kind.Kind.{Kind};
ghost use Rattle.x_compile.specs.Compile.{IsCompilation, Item};
ghost use Rattle.x_session.specs.DeclaredNames.{definition_of};
ghost use Rattle.x_explain.specs.Facts.{AreNamesOf};
ghost use Rattle.x_published.specs.Diagnostics.{IsRangeAt, declared_elsewhere, is_of_declarer, other_place};
ghost use Rattle.x_published.specs.OtherPlaces.{AreOfText, is_unknown, says_name};
ghost use Rattle.x_positions.specs.Waymarks.{AreWaymarks};

use std::alloc::Global;
use x_explain::{FaultNames, FirstDeclaration, Known, Suggestions, token_end};
use x_positions::{Range, Waymarks};
use x_session::{FaultCode, RuleCode, Session};
use x_text::NoMemory;

/// Tells the other places that matter to the faults of a text, if the client shows them, and what else the
/// text says of their words.
#[derive(Drop)]
pub struct OtherPlaces<'s> {
    /// Whether the client shows them.
    pub shown: bool,
    /// The text that is shown.
    pub text: &'s [u8],
    /// Its waymarks.
    pub marks: &'s Waymarks,
    /// What is compiled of it.
    pub session: &'s Session,
    /// Made where they are first needed, since this takes the time of going over the text.
    names: Option<FaultNames<'s>>,
    /// Made so, too.
    suggestions: Option<Suggestions>,
}

impl<'s> OtherPlaces<'s> {
    /// The other places of a text that is shown, by its waymarks, and by what is compiled of it.
    pub fn of(
        shown: bool,
        text: &'s [u8],
        marks: &'s Waymarks,
        session: &'s Session,
    ) -> OtherPlaces<'s>
        requires { AreWaymarks text.now marks.now }
        ensures of_text { AreOfText result }
        ensures shown { result.shown ≡ shown }
        ensures text { result.text.now ≡ text.now }
        ensures session { result.session.now ≡ session.now }
        ensures marks { result.marks.now ≡ marks.now }
    {
        OtherPlaces {
            shown,
            text,
            marks,
            session,
            names: None,
            suggestions: None,
        }
    }

    /// The other place that matters to a fault of this code at a word.
    pub fn range(
        &mut self,
        alloc: Global,
        code: FaultCode,
        word: &[u8],
        start: usize,
    ) -> Result<Option<Range>, NoMemory>
        requires { AreOfText self.old }
        ensures of_text { AreOfText self.new }
        ensures range { IfOk result (λ range. (tokens : List (Kind × ℕ)) (items : List Item)
            → IsCompilation self.old.session.now.known self.old.session.now.text tokens items
            → IsRangeAt self.old.marks.now.encoding self.old.text.now self.old.session.now.text
            (other_place self.old.shown items code word.now start) range) }
        ensures shown { self.new.shown ≡ self.old.shown }
        ensures text { self.new.text.now ≡ self.old.text.now }
        ensures session { self.new.session.now ≡ self.old.session.now }
        ensures marks { self.new.marks.now ≡ self.old.marks.now }
    {
        if !self.shown || !is_of_declarer(code) {
            return Ok(None);
        }
        let shown = self.text;
        let session = self.session;
        let marks = self.marks;
        if let Some(names) = &self.names {
            let name = names.name(code, start, word);
            return Ok(declared_range(names, shown, session.bytes(), marks, name, start));
        }
        let names = FaultNames::of(alloc, session)?;
        let name = names.name(code, start, word);
        let range = declared_range(&names, shown, session.bytes(), marks, name, start);
        self.names = Some(names);
        Ok(range)
    }

    /// Makes what is needed to say what is wrong with a word.
    pub fn make(&mut self, alloc: Global, code: FaultCode) -> Result<(), NoMemory>
        requires { AreOfText self.old }
        ensures of_text { AreOfText self.new }
        ensures shown { self.new.shown ≡ self.old.shown }
        ensures text { self.new.text.now ≡ self.old.text.now }
        ensures session { self.new.session.now ≡ self.old.session.now }
        ensures marks { self.new.marks.now ≡ self.old.marks.now }
    {
        if says_name(code) {
            self.make_names(alloc)
        } else if is_unknown(code) {
            self.make_suggestions(alloc)
        } else {
            Ok(())
        }
    }

    fn make_names(&mut self, alloc: Global) -> Result<(), NoMemory>
        requires { AreOfText self.old }
        ensures of_text { AreOfText self.new }
        ensures shown { self.new.shown ≡ self.old.shown }
        ensures text { self.new.text.now ≡ self.old.text.now }
        ensures session { self.new.session.now ≡ self.old.session.now }
        ensures marks { self.new.marks.now ≡ self.old.marks.now }
    {
        if self.names.is_none() {
            let names = FaultNames::of(alloc, self.session)?;
            self.names = Some(names);
        }
        Ok(())
    }

    fn make_suggestions(&mut self, alloc: Global) -> Result<(), NoMemory>
        requires { AreOfText self.old }
        ensures of_text { AreOfText self.new }
        ensures shown { self.new.shown ≡ self.old.shown }
        ensures text { self.new.text.now ≡ self.old.text.now }
        ensures session { self.new.session.now ≡ self.old.session.now }
        ensures marks { self.new.marks.now ≡ self.old.marks.now }
    {
        if self.suggestions.is_none() {
            let suggestions = Suggestions::of(alloc, self.session)?;
            self.suggestions = Some(suggestions);
        }
        Ok(())
    }

    /// What is known of a word with a fault that starts at a place, by what was made for the fault.
    pub fn known<'f>(&'f self, code: FaultCode, start: usize, word: &'f [u8]) -> Known<'f> {
        let name = match &self.names {
            Some(names) => names.name(code, start, word),
            None => word,
        };
        let place = match &self.names {
            Some(names) if says_name(code) => names.first(name),
            _ => None,
        };
        let suggested = match &self.suggestions {
            Some(suggestions) if is_unknown(code) => suggestions.at(start),
            _ => None,
        };
        Known {
            name,
            first: place.map(|place| FirstDeclaration { file: None, place }),
            suggested,
        }
    }
}

/// Whether what is said of a fault tells the name, or what that is declared as.
fn says_name(code: FaultCode) -> bool
    ensures { result ≡ says_name code }
{
    matches!(
        code,
        FaultCode::Rule(RuleCode::Duplicate | RuleCode::NotType | RuleCode::NotConst)
    )
}

/// Whether the word of a fault is not declared.
fn is_unknown(code: FaultCode) -> bool
    ensures { result ≡ is_unknown code }
{
    matches!(code, FaultCode::Rule(RuleCode::Unknown))
}

/// Where a word is declared first.
fn place_in(names: &FaultNames, word: &[u8]) -> Option<usize>
    ensures { (text : List ℕ) (items : List Item) → AreNamesOf text items names.now
        → result ≡ option_map (λ t. t.start) (definition_of items word.now) }
{
    match names.first(word) {
        Some(first) => Some(first.spot.start),
        None => None,
    }
}

/// The range of the token that declares a word first, in the text that is shown, if that is not the token at
/// this place.
fn declared_range(
    names: &FaultNames,
    shown: &[u8],
    text: &[u8],
    marks: &Waymarks,
    word: &[u8],
    start: usize,
) -> Option<Range>
    requires { AreWaymarks shown.now marks.now }
    ensures { (items : List Item) → AreNamesOf text.now items names.now
        → IsRangeAt marks.now.encoding shown.now text.now (declared_elsewhere items word.now start) result }
{
    let place = place_in(names, word)?;
    if place == start {
        return None;
    }
    Some(marks.range(shown, place, token_end(text, place)))
}

/// Whether a fault says something of how its word is declared.
fn is_of_declarer(code: FaultCode) -> bool
    ensures { result ≡ is_of_declarer code }
{
    match code {
        FaultCode::Syntax(_) => false,
        FaultCode::Rule(rule) => matches!(
            rule,
            RuleCode::Duplicate
                | RuleCode::LateName
                | RuleCode::NotType
                | RuleCode::NotConst
                | RuleCode::UsesFaulty
        ),
    }
}
