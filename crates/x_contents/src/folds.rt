//! Which lines of a document can be folded away.

ghost use Rattle.std.specs.Prelude.{◌≡◌, ◌++◌, map, IfOk, OnOk};
ghost use Rattle.serde_json.specs.Data.{array};
ghost use Rattle.serde_json.specs.View.{items_of};
ghost use Rattle.serde_json.specs.Written.{compact_text};
ghost use Rattle.x_lex.specs.Places.{lexeme};
ghost use Rattle.x_compile.specs.Compile.{tokens_of};
ghost use Rattle.x_session.specs.Session.{Compiles};
ghost use Rattle.x_contents.specs.Folds.{ended, fold_data, fold_text, folds_in, found_in, kind_text};
ghost use Rattle.x_contents.specs.Folds.{lines_inside, passed_on, read, with_fold, with_mark};
ghost use Rattle.x_contents.specs.Reading.{folding_of};

use std::alloc::Global;
use x_frames::{end_list, write_number};
use x_lex::{Kind, Mark, Token};
use x_positions::{Encoding, Places};
use x_session::Session;
use x_text::{NoMemory, Source};

/// A `FoldingRange` of each part of a document that has more than one line.
pub(crate) fn folds(alloc: Global, shown: &Source, session: &Session) -> Result<Vec<u8>, NoMemory>
    ensures { IfOk result (λ text. Compiles session.now.known session.now.text
        (λ items. text.items ≡ compact_text (array (items_of (folds_in shown.now (tokens_of items)))))) }
{
    let folds = found_folds(alloc, shown, session)?;
    folds_text(alloc, &folds)
}

/// What can be folded away.
fn found_folds(alloc: Global, shown: &Source, session: &Session) -> Result<Vec<Fold>, NoMemory>
    ensures { IfOk result (λ folds. Compiles session.now.known session.now.text
        (λ items. folds.items ≡ found_in shown.now (tokens_of items))) }
{
    let mut reader = FoldReader {
        folds: Vec::new(alloc),
        places: Places::of(Encoding::Utf8, shown.bytes()),
        braces: Vec::new(alloc),
        passed_on: None,
    };
    for token in session.tokens() {
        reader.read(&token)?;
    }
    reader.end_passed_on()?;
    Ok(reader.folds)
}

/// Lines from one to another.
#[derive(Clone, Copy, Debug)]
struct Lines {
    first: usize,
    last: usize,
}

/// Lines that can be folded away.
#[derive(Clone, Copy, Debug)]
struct Fold {
    lines: Lines,
    comment: bool,
}

/// Finds what can be folded away, token by token.
#[derive(Drop)]
struct FoldReader<'s> {
    folds: Vec<Fold>,
    places: Places<'s>,
    /// The lines of the braces that are open.
    braces: Vec<usize>,
    /// The lines behind one another so far that begin with `%`.
    passed_on: Option<Lines>,
}

impl FoldReader<'_> {
    fn read(&mut self, token: &Token) -> Result<(), NoMemory>
        ensures folds { OnOk result (folding_of self.new
            ≡ read self.old.places.text (folding_of self.old) (lexeme token.now)) }
        ensures places { self.new.places ≡ self.old.places }
    {
        let lines = Lines {
            first: self.places.position(token.start).line,
            last: self.places.position(token.end).line,
        };
        match token.kind {
            Kind::Space => return Ok(()),
            Kind::Percent => return self.pass_on(lines),
            _ => self.end_passed_on()?,
        }
        match token.kind {
            Kind::Comment | Kind::OpenComment => self.add(lines, true),
            Kind::Punct => self.read_brace(lines.first, Mark::of(token.text)),
            _ => Ok(()),
        }
    }

    /// Takes note of a line that begins with `%`.
    fn pass_on(&mut self, lines: Lines) -> Result<(), NoMemory>
        ensures folds { OnOk result (folding_of self.new
            ≡ passed_on (folding_of self.old) self.old.passed_on lines) }
        ensures places { self.new.places ≡ self.old.places }
    {
        match self.passed_on {
            Some(before) if before.last.saturating_add(1) == lines.first => {
                self.passed_on = Some(Lines {
                    first: before.first,
                    last: lines.last,
                });
            }
            _ => {
                self.end_passed_on()?;
                self.passed_on = Some(lines);
            }
        }
        Ok(())
    }

    /// No further line goes on with those that begin with `%`.
    fn end_passed_on(&mut self) -> Result<(), NoMemory>
        ensures folds { OnOk result (folding_of self.new ≡ ended (folding_of self.old)) }
        ensures places { self.new.places ≡ self.old.places }
    {
        if let Some(lines) = self.passed_on {
            self.add(lines, false)?;
        }
        self.passed_on = None;
        Ok(())
    }

    fn read_brace(&mut self, line: usize, mark: Option<Mark>) -> Result<(), NoMemory>
        ensures folds { OnOk result (folding_of self.new ≡ with_mark (folding_of self.old) line mark) }
        ensures places { self.new.places ≡ self.old.places }
    {
        match mark {
            Some(Mark::OpenBrace) => self.braces.push(line)?,
            Some(Mark::CloseBrace) => {
                if let Some(first) = self.braces.pop() {
                    self.add(inside(first, line), false)?;
                }
            }
            _ => {}
        }
        Ok(())
    }

    /// Adds a fold of lines, if there is more than one.
    fn add(&mut self, lines: Lines, comment: bool) -> Result<(), NoMemory>
        ensures folds { OnOk result (folding_of self.new ≡ with_fold (folding_of self.old) lines comment) }
        ensures places { self.new.places ≡ self.old.places }
    {
        if lines.first < lines.last {
            self.folds.push(Fold { lines, comment })?;
        }
        Ok(())
    }
}

/// The lines to fold between braces: the line of the closing one stays, unless it is the next.
fn inside(opening: usize, closing: usize) -> Lines
    ensures { result ≡ lines_inside opening closing }
{
    let before = closing.saturating_sub(1);
    Lines {
        first: opening,
        last: if before > opening { before } else { closing },
    }
}

/// The text of folds.
fn folds_text(alloc: Global, folds: &[Fold]) -> Result<Vec<u8>, NoMemory>
    ensures { IfOk result
        (λ text. text.items ≡ compact_text (array (items_of (map fold_data folds.now)))) }
{
    let mut text = Vec::from_slice(alloc, b"[")?;
    for fold in folds {
        write_fold(&mut text, *fold)?;
    }
    end_list(&mut text)?;
    Ok(text)
}

/// Writes the kind of a fold, which that of a comment has.
fn write_kind(text: &mut Vec<u8>, comment: bool) -> Result<(), NoMemory>
    ensures { OnOk result (text.new.items ≡ text.old.items ++ kind_text comment) }
{
    if comment {
        text.extend_from_slice(b",\"kind\":\"comment\"")?;
    }
    Ok(())
}

/// Writes a `FoldingRange`, with a comma behind it.
fn write_fold(text: &mut Vec<u8>, fold: Fold) -> Result<(), NoMemory>
    ensures { OnOk result (text.new.items ≡ text.old.items ++ fold_text fold) }
{
    text.extend_from_slice(b"{\"endLine\":")?;
    write_number(text, fold.lines.last)?;
    write_kind(text, fold.comment)?;
    text.extend_from_slice(b",\"startLine\":")?;
    write_number(text, fold.lines.first)?;
    text.extend_from_slice(b"}")?;
    text.extend_from_slice(b",")?;
    Ok(())
}
