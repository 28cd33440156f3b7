//! The text of a file, opened for a run.

ghost use Rattle.std.specs.Prelude.{◌≡◌, ◌⊎◌, codes, OnErr, OnOk};
ghost use Rattle.x_streams.specs.Writing.{Adds};
ghost use Rattle.x_opening.specs.Opened.{told_fault, told_faults, ExplainsFaults, IsOpened, TellsFaults};
ghost use Rattle.x_explain.specs.KnownFiles.{no_places, places_of_files};
ghost use Rattle.x_opening.specs.Opening.{HavePlaces, from_options};
ghost use Rattle.x_args.specs.Telling.{IsTold, told_of};
ghost use Rattle.x_session.specs.Session.{Compiles};

use crate::base::base_of_file;
use crate::complaint::tell_unopened;
use crate::known::{KnownSources, open_by};
use std::alloc::Global;
use x_args::{BeforeArgs, Status, tell_of_file};
use x_explain::{FaultFacts, KnownFiles, add_explained_faults};
use x_hash::HashKey;
use x_prelude::{FromC, foreign_names};
use x_session::{Fault, Faults, Session, add_place};
use x_text::{NoMemory, Pen, Sink};

/// How the faults of a text are reported.
#[derive(Clone, Copy, Debug, PartialEq, Eq)]
pub enum FaultStyle {
    /// One a line, as other programs read them.
    Plain,
    /// Each with its line, a mark and what helps.
    Explained,
    /// The same in the colours of a terminal.
    Coloured,
}

/// How the text of a file is opened: what stands before it, and how its faults are reported.
#[derive(Clone, Copy)]
pub struct Opening<'o, 'k> {
    /// How its faults are reported.
    pub style: FaultStyle,
    /// The files whose definitions are known before it.
    pub known: &'o KnownSources<'k>,
    /// Which names of C it may use without declaring them.
    pub from_c: FromC,
}

impl<'o, 'k> Opening<'o, 'k> {
    /// How texts are opened by the options of a command line.
    pub fn of(
        style: FaultStyle,
        known: &'o KnownSources<'k>,
        options: &BeforeArgs,
    ) -> Opening<'o, 'k>
        ensures style { result.style ≡ style }
        ensures known { result.known.now ≡ known.now }
        ensures from_c { result.from_c ≡ from_options options.now }
    {
        Opening {
            style,
            known,
            from_c: from_options(options),
        }
    }
}

/// What the options of a command line take from C.
pub fn from_options(options: &BeforeArgs) -> FromC
    ensures { result ≡ from_options options.now }
{
    FromC {
        types: options.c_types,
        foreign: options.foreign,
    }
}

/// Opens the text of a file for a run of the program, or tells what is wrong with it and answers the status:
/// `Faulty` where the text has faults, which are reported, and `Failed` where it, or what stands before it,
/// is too large, or memory runs out.
pub fn open_text<E: Sink>(
    alloc: Global,
    program: &str,
    file: &str,
    bytes: &[u8],
    how: &Opening,
    err: &mut E,
) -> Result<Session, Status>
    ensures opened { IsOpened how.now program.now file.now bytes.now
        (E.state err.old) (E.state err.new) result }
    ensures quiet { OnOk result (err.new ≡ err.old) }
{
    match open_by(
        alloc,
        how,
        HashKey::of_bytes(bytes),
        base_of_file(file),
        bytes,
    ) {
        Ok(session) => {
            if session.fault_count() > 0 {
                return Err(report_faults(alloc, program, how, file, &session, err));
            }
            Ok(session)
        }
        Err(fault) => {
            tell_unopened(program, file, fault, err);
            Err(Status::Failed)
        }
    }
}

/// Writes the faults of a file's text and answers the status: `Failed` where memory runs out, which it tells.
fn report_faults<E: Sink>(
    alloc: Global,
    program: &str,
    how: &Opening,
    file: &str,
    session: &Session,
    err: &mut E,
) -> Status
    ensures faulty { result ≡ Status.Faulty → Compiles session.now.known session.now.text (λ items.
        TellsFaults how.now file.now session.now.text items (E.state err.old) (E.state err.new)) }
    ensures failed { result ≡ Status.Failed
        → IsTold (E.state err.old) (E.state err.new) (told_of program.now (codes "out of memory")) }
    ensures others { (result ≡ Status.Faulty) ⊎ (result ≡ Status.Failed) }
{
    match tell_all_faults(alloc, how, file, session, err) {
        Ok(()) => Status::Faulty,
        Err(NoMemory) => {
            tell_of_file(program, "out of memory", "\n", err);
            Status::Failed
        }
    }
}

/// Writes the faults of a file's text, explained or one a line.
fn tell_all_faults<E: Sink>(
    alloc: Global,
    how: &Opening,
    file: &str,
    session: &Session,
    err: &mut E,
) -> Result<(), NoMemory>
    ensures told { OnOk result (Compiles session.now.known session.now.text (λ items.
        TellsFaults how.now file.now session.now.text items (E.state err.old) (E.state err.new))) }
    ensures quiet { OnErr result (err.new ≡ err.old) }
{
    match how.style {
        FaultStyle::Plain => {
            tell_faults(file, session.faults(), err);
            Ok(())
        }
        FaultStyle::Explained => explain_faults(alloc, how, false, file, session, err),
        FaultStyle::Coloured => explain_faults(alloc, how, true, file, session, err),
    }
}

/// Writes the faults of a file's text, explained.
fn explain_faults<E: Sink>(
    alloc: Global,
    how: &Opening,
    coloured: bool,
    file: &str,
    session: &Session,
    err: &mut E,
) -> Result<(), NoMemory>
    ensures told { OnOk result (Compiles session.now.known session.now.text (λ items.
        ExplainsFaults how.now coloured file.now session.now.text items
        (E.state err.old) (E.state err.new))) }
    ensures quiet { OnErr result (err.new ≡ err.old) }
{
    let places = how.known.places(alloc)?;
    explain_over(alloc, how, &places, coloured, file, session, err)
}

/// The same, where the known files declare names at these places.
fn explain_over<E: Sink>(
    alloc: Global,
    how: &Opening,
    places: &KnownFiles,
    coloured: bool,
    file: &str,
    session: &Session,
    err: &mut E,
) -> Result<(), NoMemory>
    requires { HavePlaces no_places how.now.known.now.files.items (places_of_files places.now.list.items) }
    ensures told { OnOk result (Compiles session.now.known session.now.text (λ items.
        ExplainsFaults how.now coloured file.now session.now.text items
        (E.state err.old) (E.state err.new))) }
    ensures quiet { OnErr result (err.new ≡ err.old) }
{
    let foreign = foreign_names(alloc, how.known.text(), how.from_c, session)?;
    let facts = FaultFacts::of(alloc, session, places, foreign)?;
    let mut pen = Pen::new();
    add_explained_faults(coloured, file, session, &facts, &mut pen, err);
    let _ = pen.finish(err);
    Ok(())
}

/// Writes the faults of a file's text, one a line.
fn tell_faults<E: Sink>(file: &str, faults: Faults<'_>, err: &mut E)
    ensures { IsTold (E.state err.old) (E.state err.new) (told_faults file.now faults.entry) }
{
    let mut pen = Pen::new();
    for fault in faults {
        add_fault(file, &fault, &mut pen, err);
    }
    let _ = pen.finish(err);
}

/// Adds the line that tells a fault of a file's text.
fn add_fault<E: Sink>(file: &str, fault: &Fault, pen: &mut Pen, err: &mut E)
    ensures { Adds pen.old (E.state err.old) pen.new (E.state err.new) (told_fault file.now fault.now) }
{
    pen.add(file.as_bytes(), err);
    pen.add(b":", err);
    add_place(fault, pen, err);
    pen.add(b": ", err);
    pen.add(fault.code.text().as_bytes(), err);
    pen.add(b"\n", err);
}
