//! What a text says of its words with faults.

ghost use Rattle.std.specs.Prelude.{◌≡◌, IfOk, List, ℕ, option_map};
ghost use Rattle.x_compile.specs.Compile.{Item};
ghost use Rattle.x_session.specs.Session.{Compiles};
ghost use Rattle.x_session.specs.DeclaredNames.{first_place};
ghost use Rattle.x_explain.specs.Facts.{AreFactsOf, AreNamesOf, before_in, first_of, foreign_in};
ghost use Rattle.x_explain.specs.Facts.{is_of_declarer, known_of, name_of, near_in, suggested_for};
ghost use Rattle.x_explain.specs.Facts.{view_known};
ghost use Rattle.x_session.specs.Foreign.{view_all};
ghost use Rattle.x_explain.specs.KnownFiles.{first_declaration, places_of_files, view_first};

use crate::again::AgainNames;
use crate::known_files::{FirstDeclaration, KnownFiles};
use crate::suggestions::{Suggestions, is_unknown};
use std::alloc::Global;
use x_session::{DeclaredNames, FaultCode, FirstPlace, ForeignName, RuleCode, Session};
use x_text::NoMemory;

/// What is known of a word with a fault.
#[derive(Clone, Copy, Debug)]
pub struct Known<'f> {
    /// The name that the fault is about: the word, or the whole name of an inline type.
    pub name: &'f [u8],
    /// Where that is declared first, and as what, if this matters to the fault.
    pub first: Option<FirstDeclaration<'f>>,
    /// What it may have been meant as, if it is not declared.
    pub suggested: Option<&'f [u8]>,
}

/// The names that faults of a text are about, and where they are declared first.
#[derive(Drop)]
pub struct FaultNames<'s> {
    declared: DeclaredNames<'s>,
    again: AgainNames<'s>,
}

impl<'s> FaultNames<'s> {
    /// Those of a text, over which this goes three times.
    ///
    /// # Errors
    ///
    /// [`NoMemory`] where a table could not grow.
    pub fn of(alloc: Global, session: &'s Session) -> Result<FaultNames<'s>, NoMemory>
        ensures { IfOk result (λ names. Compiles session.now.known session.now.text
            (λ items. AreNamesOf session.now.text items names)) }
    {
        let declared = DeclaredNames::of(alloc, session)?;
        let again = AgainNames::of(alloc, session, &declared)?;
        Ok(FaultNames { declared, again })
    }

    /// The name that a fault is about, of a word that starts at a place: the word, or the whole name of an
    /// inline type that it declares again.
    pub fn name<'f>(&'f self, code: FaultCode, start: usize, word: &'f [u8]) -> &'f [u8]
        ensures { (text : List ℕ) (items : List Item) → AreNamesOf text items self.now
            → result.now ≡ name_of items code start word.now }
    {
        match code {
            FaultCode::Rule(RuleCode::Duplicate) => self.again.at(start).unwrap_or(word),
            _ => word,
        }
    }

    /// Where a name is declared first (RFC 4506, section 6.4).
    pub fn first(&self, name: &[u8]) -> Option<FirstPlace>
        ensures { (text : List ℕ) (items : List Item) → AreNamesOf text items self.now
            → result ≡ first_place text items name.now }
    {
        self.declared.first(name)
    }
}

/// What a text, and what is known before it, say of its words with faults.
#[derive(Drop)]
pub struct FaultFacts<'s> {
    files: &'s KnownFiles<'s>,
    pub(crate) foreign: Vec<ForeignName<'s>>,
    names: FaultNames<'s>,
    suggestions: Suggestions,
}

impl<'s> FaultFacts<'s> {
    /// What a text says, over which this goes several times, where these files are known before it, and it
    /// takes these names from C.
    ///
    /// # Errors
    ///
    /// [`NoMemory`] where a table could not grow.
    pub fn of(
        alloc: Global,
        session: &'s Session,
        files: &'s KnownFiles<'s>,
        foreign: Vec<ForeignName<'s>>,
    ) -> Result<FaultFacts<'s>, NoMemory>
        ensures facts { IfOk result (λ facts. Compiles session.now.known session.now.text
            (λ items. AreFactsOf session.now.text items facts)) }
        ensures files { IfOk result (λ facts. before_in facts ≡ places_of_files files.now.list.items) }
        ensures foreign { IfOk result (λ facts. foreign_in facts ≡ view_all foreign.entry.items) }
    {
        let names = FaultNames::of(alloc, session)?;
        let suggestions = Suggestions::of(alloc, session)?;
        Ok(FaultFacts {
            files,
            foreign,
            names,
            suggestions,
        })
    }

    /// What is known of a word with a fault that starts at a place.
    pub fn known<'f>(&'f self, code: FaultCode, start: usize, word: &'f [u8]) -> Known<'f>
        ensures { (text : List ℕ) (items : List Item) → AreFactsOf text items self.now → view_known result
            ≡ known_of (before_in self.now) text items (near_in self.now) code start word.now }
    {
        let name = self.names.name(code, start, word);
        Known {
            name,
            first: self.first_of(code, name),
            suggested: self.suggested(code, start),
        }
    }

    /// Where a name is declared first, if that matters to the fault.
    fn first_of(&self, code: FaultCode, name: &[u8]) -> Option<FirstDeclaration<'_>>
        ensures { (text : List ℕ) (items : List Item) → AreFactsOf text items self.now
            → option_map view_first result ≡ first_of (before_in self.now) text items code name.now }
    {
        if is_of_declarer(code) {
            self.first(name)
        } else {
            None
        }
    }

    /// Where a name is declared first: before the text, or in it.
    fn first(&self, name: &[u8]) -> Option<FirstDeclaration<'_>>
        ensures { (text : List ℕ) (items : List Item) → AreFactsOf text items self.now
            → option_map view_first result ≡ first_declaration (before_in self.now) text items name.now }
    {
        if let Some(first) = self.files.first(name) {
            return Some(first);
        }
        match self.names.first(name) {
            Some(place) => Some(FirstDeclaration { file: None, place }),
            None => None,
        }
    }

    /// What is suggested for the word that starts at a place, if it is not declared.
    fn suggested(&self, code: FaultCode, start: usize) -> Option<&[u8]>
        ensures { option_map (λ n. n.now) result ≡ suggested_for (near_in self.now) code start }
    {
        if is_unknown(code) {
            self.suggestions.at(start)
        } else {
            None
        }
    }
}

/// Whether a fault says something of how its word is declared.
fn is_of_declarer(code: FaultCode) -> bool
    ensures { result ≡ is_of_declarer code }
{
    match code {
        FaultCode::Syntax(_) => false,
        FaultCode::Rule(rule) => matches!(
            rule,
            RuleCode::Duplicate | RuleCode::LateName | RuleCode::NotType | RuleCode::NotConst
        ),
    }
}
