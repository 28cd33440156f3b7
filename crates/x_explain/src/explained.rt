//! The faults of a text, explained.

ghost use Rattle.std.specs.Prelude.{◌≡◌, ◌+◌, ℕ, List, length, option_map};
ghost use Rattle.x_text.specs.Text.{line_of, column_of};
ghost use Rattle.x_streams.specs.Writing.{Adds};
ghost use Rattle.x_compile.specs.Compile.{places_of};
ghost use Rattle.x_session.specs.Session.{Compiles};
ghost use Rattle.x_explain.specs.Explained.{AreExplained, IsPass, counted_noun, counted_notes, explained};
ghost use Rattle.x_explain.specs.Explained.{heading, headline, help_line, help_of, is_note, notes_at};
ghost use Rattle.x_explain.specs.Explained.{said_in, summary};
ghost use Rattle.x_explain.specs.Facts.{AreFactsOf, before_in, foreign_in, kind_of, near_in};
ghost use Rattle.x_explain.specs.Facts.{view_known};
ghost use Rattle.x_explain.specs.KnownFiles.{view_first};
ghost use Rattle.x_explain.specs.Sentences.{saying, view_sentence};

use crate::excerpt::excerpt_at;
use crate::facts::{FaultFacts, Known};
use crate::foreign::add_foreign_lines;
use crate::found::{FoundFault, token_end, word_at};
use crate::known_files::FirstDeclaration;
use crate::lines::{
    RED, add_caret_line, add_help_line, add_note_line, add_painted, add_place, add_source_line,
    add_suggestion_line,
};
use crate::sentences::{Sentence, add_sentence, sentence_of};
use x_item::NameKind;
use x_session::{FaultCode, RuleCode, Session};
use x_text::{Pen, Sink};
use x_value::add_number;

/// A fault of a text, with the line and the column of its token, and what is known of its word.
#[derive(Drop)]
struct Told<'t> {
    coloured: bool,
    file: &'t str,
    text: &'t [u8],
    found: FoundFault,
    known: Known<'t>,
    line: u32,
    column: u32,
    ghost line_is: { line ≡ line_of text.now found.start },
    ghost column_is: { column ≡ column_of text.now found.start },
}

impl Told<'_> {
    /// What is said of its word.
    fn sentence(&self) -> Sentence
        ensures { view_sentence result
            ≡ saying self.now.found.code (kind_of (option_map view_first self.now.known.first)) }
    {
        sentence_of(self.found.code, kind_of(self.known.first))
    }

    /// Adds `FILE:LINE:COL: `.
    #[tactic(auto, using(x_text::proofs::Adding::two))]
    fn add_heading<S: Sink>(&self, pen: &mut Pen, sink: &mut S)
        ensures { Adds pen.old (S.state sink.old) pen.new (S.state sink.new)
            (heading self.now.file.now self.now.text.now self.now.found) }
    {
        add_place(self.file, self.line, self.column, pen, sink);
        pen.add(b": ", sink);
    }

    /// Adds the line that says what is wrong.
    #[tactic(auto, using(x_text::proofs::Adding::five))]
    fn add_headline<S: Sink>(&self, pen: &mut Pen, sink: &mut S)
        ensures { Adds pen.old (S.state sink.old) pen.new (S.state sink.new)
            (headline (record {
              coloured = self.now.coloured;
              file = self.now.file.now;
              text = self.now.text.now;
            }) self.now.found (view_known self.now.known)) }
    {
        let code = self.found.code.text().as_bytes();
        self.add_heading(pen, sink);
        add_painted(self.coloured, RED, code, pen, sink);
        pen.add(b": ", sink);
        add_sentence(
            self.found.code,
            kind_of(self.known.first),
            self.known.name,
            pen,
            sink,
        );
        pen.add(b"\n", sink);
    }

    /// Adds that line, the line of the text and what helps.
    #[tactic(auto, using(x_text::proofs::Adding::five))]
    fn add_explained<S: Sink>(&self, pen: &mut Pen, sink: &mut S)
        ensures { Adds pen.old (S.state sink.old) pen.new (S.state sink.new)
            (explained (record {
              coloured = self.now.coloured;
              file = self.now.file.now;
              text = self.now.text.now;
            }) self.now.found (view_known self.now.known)) }
    {
        let excerpt = excerpt_at(self.text, self.found.start, self.column);
        let width = self.found.end.saturating_sub(self.found.start);
        let start = self.found.start;
        self.add_headline(pen, sink);
        add_source_line(self.line, &excerpt, pen, sink);
        add_caret_line(self.coloured, self.line, &excerpt, width, pen, sink);
        add_note_line(
            self.coloured,
            self.file,
            self.line,
            start,
            self.known.first,
            pen,
            sink,
        );
        self.add_help(pen, sink);
    }

    /// Adds what helps: the name that may have been meant, or what helps against such faults.
    fn add_help<S: Sink>(&self, pen: &mut Pen, sink: &mut S)
        ensures { Adds pen.old (S.state sink.old) pen.new (S.state sink.new)
            (help_line self.now.coloured self.now.line
            (help_of self.now.found.code (view_known self.now.known))) }
    {
        match self.known.suggested {
            Some(name) => add_suggestion_line(self.coloured, self.line, name, pen, sink),
            None => add_help_line(self.coloured, self.line, self.sentence().help, pen, sink),
        }
    }

    /// Adds what the pass says of the fault: that of errors explains them, and that of notes says them.
    fn add_in<S: Sink>(&self, pass: Pass, pen: &mut Pen, sink: &mut S)
        ensures { Adds pen.old (S.state sink.old) pen.new (S.state sink.new)
            (said_in pass (record {
              coloured = self.now.coloured;
              file = self.now.file.now;
              text = self.now.text.now;
            }) self.now.found (view_known self.now.known)) }
    {
        match (pass, is_note(self.found.code)) {
            (Pass::Errors, false) => self.add_explained(pen, sink),
            (Pass::Notes, true) => self.add_headline(pen, sink),
            _ => {}
        }
    }
}

/// What a name is declared as.
fn kind_of(first: Option<FirstDeclaration>) -> Option<NameKind>
    ensures { result ≡ kind_of (option_map view_first first.entry) }
{
    match first {
        Some(first) => Some(first.place.kind),
        None => None,
    }
}

/// Faults are gone over twice: for those that are errors, and for those that come of others.
#[derive(Clone, Copy, Debug)]
pub(crate) enum Pass {
    Errors,
    Notes,
}

/// Whether a fault comes of others: the definition of its word has faults.
fn is_note(code: FaultCode) -> bool
    ensures { result ≡ is_note code }
{
    matches!(code, FaultCode::Rule(RuleCode::UsesFaulty))
}

/// The faults of a file's text, as they are told.
#[derive(Drop)]
struct Telling<'t, 's> {
    coloured: bool,
    file: &'t str,
    session: &'t Session,
    facts: &'t FaultFacts<'s>,
}

impl Telling<'_, '_> {
    /// Adds what a pass says of the faults.
    fn add_pass<S: Sink>(&self, pass: Pass, pen: &mut Pen, sink: &mut S)
        requires { Compiles self.now.session.now.known self.now.session.now.text
            (λ items. AreFactsOf self.now.session.now.text items self.now.facts.now) }
        ensures { Compiles self.now.session.now.known self.now.session.now.text
            (λ items. IsPass pass (before_in self.now.facts.now) (record {
              coloured = self.now.coloured;
              file = self.now.file.now;
              text = self.now.session.now.text;
            }) items (near_in self.now.facts.now)
            (places_of items) pen.old (S.state sink.old) pen.new (S.state sink.new)) }
    {
        let text = self.session.bytes();
        let mut faults = self.session.faults();
        for place in self.session.fault_places() {
            let Some(fault) = faults.next() else {
                return;
            };
            let end = token_end(text, place.start);
            let found = FoundFault {
                code: place.code,
                start: place.start,
                end,
            };
            let told = Told {
                coloured: self.coloured,
                file: self.file,
                text,
                found,
                known: self
                    .facts
                    .known(place.code, place.start, word_at(text, place.start, end)),
                line: fault.line,
                column: fault.col,
            };
            told.add_in(pass, pen, sink);
        }
    }
}

/// How many faults of a text come of no others.
fn error_count(session: &Session) -> usize
    ensures { Compiles session.now.known session.now.text
        (λ items. result + notes_at (places_of items) ≡ length (places_of items)) }
{
    let mut errors = session.fault_count();
    for place in session.fault_places() {
        if is_note(place.code) {
            errors -= 1;
        }
    }
    errors
}

/// Adds a number with its noun.
#[tactic(auto, using(x_text::proofs::Adding::four))]
fn add_counted<S: Sink>(count: u128, noun: &str, pen: &mut Pen, sink: &mut S)
    ensures { Adds pen.old (S.state sink.old) pen.new (S.state sink.new) (counted_noun count noun.now) }
{
    add_number(count, pen, sink);
    pen.add(b" ", sink);
    pen.add(noun.as_bytes(), sink);
    pen.add(if count == 1 { b"" } else { b"s" }, sink);
}

/// Adds the number of notes, where there are some.
#[tactic(auto, using(x_text::proofs::Adding::two))]
fn add_counted_notes<S: Sink>(notes: u128, pen: &mut Pen, sink: &mut S)
    ensures { Adds pen.old (S.state sink.old) pen.new (S.state sink.new) (counted_notes notes) }
{
    if notes > 0 {
        pen.add(b", ", sink);
        add_counted(notes, "note", pen, sink);
    }
}

/// Adds how many errors and notes there are.
#[tactic(auto, using(x_text::proofs::Adding::three))]
fn add_summary<S: Sink>(errors: u128, notes: u128, pen: &mut Pen, sink: &mut S)
    ensures { Adds pen.old (S.state sink.old) pen.new (S.state sink.new) (summary errors notes) }
{
    add_counted(errors, "error", pen, sink);
    add_counted_notes(notes, pen, sink);
    pen.add(b"\n", sink);
}

/// Adds the faults of a file's text, explained: each error with its line and what helps, then each fault that
/// comes of others and each name that is taken from C in a line, and then how many there are. `facts` are
/// those of the text.
///
/// Goes over the faults three times, and takes no memory.
pub fn add_explained_faults<S: Sink>(
    coloured: bool,
    file: &str,
    session: &Session,
    facts: &FaultFacts,
    pen: &mut Pen,
    sink: &mut S,
)
    requires { Compiles session.now.known session.now.text
        (λ items. AreFactsOf session.now.text items facts.now) }
    ensures { Compiles session.now.known session.now.text (λ items. (said : List ℕ)
        × AreExplained (before_in facts.now) (foreign_in facts.now)
        (record { coloured = coloured; file = file.now; text = session.now.text }) items said
        × Adds pen.old (S.state sink.old) pen.new (S.state sink.new) said) }
{
    let errors = error_count(session);
    let caused = session.fault_count() - errors;
    let telling = Telling {
        coloured,
        file,
        session,
        facts,
    };
    telling.add_pass(Pass::Errors, pen, sink);
    telling.add_pass(Pass::Notes, pen, sink);
    let foreign = facts.foreign.as_slice();
    add_foreign_lines(coloured, file, foreign, pen, sink);
    let notes = caused as u128 + foreign.len() as u128;
    add_summary(errors as u128, notes, pen, sink);
}
