//! Scripts of edits and questions.

ghost use Rattle.std.specs.Prelude.{◌≡◌, ◌≤◌, ℕ, true, false, List, length, OnErr, MatchOption};
ghost use Rattle.x_text.specs.Edits.{change_of};
ghost use Rattle.x_streams.specs.Writing.{Adds};
ghost use Rattle.x_prelude.specs.Followed.{IsOver};
ghost use Rattle.x_session.specs.Session.{Compiles};
ghost use Rattle.x_script.specs.Answers.{answer, edit_answer};
ghost use Rattle.x_script.specs.Giving.{GivesBy, Renews, is_question};
ghost use Rattle.x_script.specs.LineAnswers.{IsCommandAnswer, IsLineAnswer};
ghost use Rattle.x_script.specs.Situations.{situation};
ghost use Rattle.x_lines.specs.declared.lines.TheConstants.{LONGEST};
ghost use Rattle.x_script.specs.Script.{AddsAnswer, AddsIfFound, HasGiven, GoesOn, Runs, script_run};
ghost use Rattle.x_script.specs.declared.script.ScriptFile.{ScriptFile};
ghost use Rattle.x_streams.specs.Engines.{NamesCause};
ghost use Rattle.x_lines.specs.Lines.{FailsBy};

mod answer;
mod clashing;
mod command;
mod explaining;
mod refusal;
mod showing;

use answer::{add_counted, add_definitions, add_faults, add_text, add_tokens};
use clashing::answer_clashes;
use command::{asks_for_clashes, asks_to_explain};
pub use command::{Command, Insert, dump_words, parse_command};
use explaining::answer_explained;
use refusal::LineRefusal;
use showing::answer_dump;
use std::alloc::Global;
use x_explain::KnownFiles;
use x_lines::{LineEvent, LineFault, LineReader};
use x_prelude::FollowedText;
use x_session::Session;
use x_text::{Edit, EngineFault, NoMemory, Outcome, Pen, Sink, Tap, TextFault};

/// The file that a script is about.
#[derive(Clone, Copy)]
pub struct ScriptFile<'f> {
    pub name: &'f str,
    /// Where the files that are known before its text declare their names.
    pub known: &'f KnownFiles<'f>,
    /// Whether these take no name from C but those of its table, so that values can be read by their types.
    pub is_plain: bool,
}

/// Carries out the script that a tap gives, line by line, and writes the answer to each line before it
/// carries out the next. Each question is about the text as it is then, over what stands before it then.
///
/// # Errors
///
/// The tap or the sink failed, or memory ran out, or what stands before the text became too large: the lines
/// before are answered and carried out. Where the sink failed, the line whose answer was not written whole is
/// carried out too.
pub fn run_script<R: Tap, S: Sink>(
    alloc: Global,
    text: &mut FollowedText,
    file: &ScriptFile,
    tap: &mut R,
    sink: &mut S,
) -> Result<Outcome, EngineFault>
    requires { IsOver text.now }
    ensures over { IsOver text.new }
    ensures runs { MatchOption (R.state tap.old).bytes (Unit {0})
        (λ script. Runs script (R.state tap.new).bytes (script_run (situation file.now text.old)
        (situation file.now text.new) (S.state sink.old) (S.state sink.new)) result) }
    ensures cause { NamesCause result (R.state tap.old).failed (R.state tap.new).failed
        (S.state sink.old).failed (S.state sink.new).failed }
{
    let mut reader = LineReader::new(alloc);
    let mut pen = Pen::new();
    let mut outcome = Outcome::Clean;
    for _ in 0..u64::MAX {
        match next_answer(alloc, text, file, &mut reader, tap, &mut pen, sink) {
            Ok(None) => return Ok(outcome),
            Ok(Some(refused)) => outcome = outcome.with(refused),
            Err(LineFault::Read) => {
                return Err(EngineFault::Read {
                    written: pen.written(),
                });
            }
            Err(LineFault::NoMemory) => {
                return Err(EngineFault::NoMemory {
                    written: pen.written(),
                });
            }
        }
        pen.flush(sink);
        if pen.has_stopped() {
            return Err(EngineFault::Write {
                written: pen.written(),
            });
        }
    }
    // No tap comes to so many lines.
    Err(EngineFault::NoMemory {
        written: pen.written(),
    })
}

/// Finds the next line and answers it. It answers whether that was refused, or `None` at the end of the
/// script.
fn next_answer<R: Tap, S: Sink>(
    alloc: Global,
    text: &mut FollowedText,
    file: &ScriptFile,
    reader: &mut LineReader,
    tap: &mut R,
    pen: &mut Pen,
    sink: &mut S,
) -> Result<Option<bool>, LineFault>
    requires { IsOver text.now }
    ensures over { IsOver text.new }
    ensures given { (script : List ℕ) (given : List (List ℕ))
        → HasGiven script reader.old (R.state tap.old).bytes given →
        GoesOn (situation file.now text.old) (situation file.now text.new) script reader.new
        (R.state tap.new).bytes given result pen.old (S.state sink.old) pen.new (S.state sink.new) }
    ensures adds { AddsIfFound result sink.old sink.new
        ((told : List ℕ) × Adds pen.old (S.state sink.old) pen.new (S.state sink.new) told) }
    ensures failed { FailsBy result (R.state tap.old).failed (R.state tap.new).failed }
{
    let refused = match reader.next(tap)? {
        LineEvent::End => return Ok(None),
        LineEvent::TooLong => {
            LineRefusal::LongLine.add_line(pen, sink);
            true
        }
        LineEvent::Line => match answer_line(alloc, text, file, reader.line(), pen, sink) {
            Ok(refused) => refused,
            Err(NoMemory) => return Err(LineFault::NoMemory),
        },
    };
    Ok(Some(refused))
}

/// Puts before the text what stands before it as it is. Where that would be too large, nothing is done, as
/// without memory.
pub(crate) fn renew(text: &mut FollowedText) -> Result<(), NoMemory>
    requires { IsOver text.now }
    ensures { Renews text.old text.new result }
{
    match text.renew() {
        Ok(()) => Ok(()),
        Err(_) => Err(NoMemory),
    }
}

/// Carries out a command, adds its answer, and answers whether that refuses it. Without memory nothing is
/// done.
fn carry_out<S: Sink>(
    text: &mut FollowedText,
    command: &Command,
    pen: &mut Pen,
    sink: &mut S,
) -> Result<bool, NoMemory>
    requires { IsOver text.now }
    ensures over { IsOver text.new }
    ensures given { (file : ScriptFile) → GivesBy (λ how here a. IsCommandAnswer how here command.now a)
        (situation file text.old) (situation file text.new) result
        pen.old (S.state sink.old) pen.new (S.state sink.new) }
    ensures same { OnErr result ((pen.new ≡ pen.old) × (sink.new ≡ sink.old)) }
{
    match command {
        Command::Edit { start, end, insert } => {
            let edit = Edit {
                start: *start,
                end: *end,
                insert: insert.bytes(),
            };
            carry_out_edit(text, &edit, pen, sink)
        }
        Command::Bad => {
            LineRefusal::BadLine.add_line(pen, sink);
            Ok(true)
        }
        _ => {
            renew(text)?;
            add_answer(&text.session, command, pen, sink);
            Ok(false)
        }
    }
}

/// Adds the answer to a question.
fn add_answer<S: Sink>(session: &Session, command: &Command, pen: &mut Pen, sink: &mut S)
    requires { is_question command.now ≡ true }
    ensures { Compiles session.now.known session.now.text (λ items. AddsAnswer
        (answer session.now.base session.now.text items command.now) session.now.text false
        pen.old (S.state sink.old) pen.new (S.state sink.new)) }
{
    match command {
        Command::Tokens => add_tokens(session, pen, sink),
        Command::Definitions => add_definitions(session, pen, sink),
        Command::Faults => add_faults(session, pen, sink),
        Command::Text(which) => add_text(*which, session, pen, sink),
        Command::Edit { .. } | Command::Bad => {}
    }
}

/// Answers a line, and answers whether that refuses it. Without memory nothing is done.
fn answer_line<S: Sink>(
    alloc: Global,
    text: &mut FollowedText,
    file: &ScriptFile,
    line: &[u8],
    pen: &mut Pen,
    sink: &mut S,
) -> Result<bool, NoMemory>
    requires length { length line.now ≤ LONGEST }
    requires over { IsOver text.now }
    ensures over { IsOver text.new }
    ensures given { GivesBy (λ how here a. IsLineAnswer how here line.now a)
        (situation file.now text.old) (situation file.now text.new) result
        pen.old (S.state sink.old) pen.new (S.state sink.new) }
    ensures same { OnErr result ((pen.new ≡ pen.old) × (sink.new ≡ sink.old)) }
{
    if let Some((name, hex)) = dump_words(line) {
        return answer_dump(alloc, text, file, name, hex, pen, sink);
    }
    if asks_to_explain(line) {
        return answer_explained(alloc, text, file, pen, sink);
    }
    if asks_for_clashes(line) {
        return answer_clashes(alloc, text, file, pen, sink);
    }
    let command = parse_command(alloc, line)?;
    carry_out(text, &command, pen, sink)
}

/// Carries out an edit, adds its answer, and answers whether that refuses it.
fn carry_out_edit<S: Sink>(
    text: &mut FollowedText,
    edit: &Edit,
    pen: &mut Pen,
    sink: &mut S,
) -> Result<bool, NoMemory>
    requires { IsOver text.now }
    ensures over { IsOver text.new }
    ensures given { (file : ScriptFile) → GivesBy
        (λ how here a. a ≡ edit_answer (change_of here edit.now)) (situation file text.old)
        (situation file text.new) result pen.old (S.state sink.old) pen.new (S.state sink.new) }
    ensures same { OnErr result ((pen.new ≡ pen.old) × (sink.new ≡ sink.old)) }
{
    match text.apply(edit) {
        Ok(_) => {
            add_counted("ok", text.session.bytes().len(), pen, sink);
            Ok(false)
        }
        Err(TextFault::BadRange) => {
            LineRefusal::BadRange.add_line(pen, sink);
            Ok(true)
        }
        Err(TextFault::TooLarge) => {
            LineRefusal::TooLarge.add_line(pen, sink);
            Ok(true)
        }
        Err(TextFault::NoMemory) => Err(NoMemory),
    }
}
