//! What `rpcgen` does, over a text that was read and sinks.

ghost use Rattle.std.specs.Prelude.{◌≡◌, ◌≢◌, ◌⊎◌, ◌<◌, [], false, map, not, codes, length, IsTrue, OnOk};
ghost use Rattle.std.specs.Prelude.{if◌then◌else◌};
ghost use Rattle.std.specs.Io.KnownBytes.{Appends};
ghost use Rattle.x_opening.specs.Opened.{IsFaultless, IsOpened};
ghost use Rattle.x_generating.specs.Generate.{NotGenerated, NotWritten};
ghost use Rattle.x_args.specs.BaseNames.{base_of};
ghost use Rattle.x_generating.specs.Generate.{no_output_told, output_told};
ghost use Rattle.x_opening.specs.Opening.{CompilesBy};
ghost use Rattle.x_generating.specs.Outputs.{Holds, IsNamed};
ghost use Rattle.x_generating.specs.Warnings.{IsFaulty, IsGood, IsPlain, TellsClashes, TellsThem};
ghost use Rattle.x_args.specs.Telling.{Complains, Grows, IsTold};
ghost use Rattle.x_session.specs.Session.{Compiles};
ghost use Rattle.x_compile.specs.Generated.{text_of};
ghost use Rattle.x_text.specs.Limits.{most_text};
ghost use Rattle.x_warnings.specs.Warnings.{view_warning};

mod checking;
mod output;
mod warnings;

pub use checking::{Screen, check_run};
pub use output::{Output, OutputFault};
use std::alloc::Global;
use std::mem;
use warnings::{are_faults, say, told_warnings};
use x_args::{GenArgs, Status, complain_of_output, tell_of_file};
use x_opening::{Opening, open_text};
use x_session::{Session, Which};
use x_text::{NoMemory, Outlet, Sink};
use x_warnings::Warning;

/// Opens the text of a file for a run of `rpcgen`, or tells what is wrong with it and answers the status:
/// `Faulty` where the text has faults, which are reported, and `Failed` where it, or what stands before it,
/// is too large, or memory runs out.
pub fn gen_open<E: Sink>(
    alloc: Global,
    file: &str,
    bytes: &[u8],
    how: &Opening,
    err: &mut E,
) -> Result<Session, Status>
    ensures opened { IsOpened how.now (codes "rpcgen") file.now bytes.now
        (E.state err.old) (E.state err.new) result }
    ensures quiet { OnOk result (err.new ≡ err.old) }
{
    open_text(alloc, "rpcgen", file, bytes, how, err)
}

/// Writes a generated text and flushes the output, and answers whether it took all.
fn is_written<O: Sink>(which: Which, session: &Session, out: &mut O) -> bool
    ensures written { IsTrue result
        → Compiles session.now.known session.now.text
        (λ items. Appends (O.state out.old).bytes (O.state out.new).bytes
        (text_of which session.now.base items)) }
    ensures front { result ≡ false
        → Compiles session.now.known session.now.text
        (λ items. Grows (O.state out.old) (O.state out.new) (text_of which session.now.base items)) }
    ensures working { result ≡ not (O.state out.new).failed }
{
    if session.write_text(which, out).is_err() {
        return false;
    }
    out.flush().is_ok()
}

/// Writes a generated text, and answers the status: `Failed` where the output fails, which it tells, unless
/// the output's reader has enough.
pub fn gen_write<O: Outlet, E: Sink>(
    which: Which,
    session: &Session,
    out: &mut O,
    err: &mut E,
) -> Status
    ensures written { result ≡ Status.Done
        → Compiles session.now.known session.now.text
        (λ items. Appends (O.state out.old).bytes (O.state out.new).bytes
        (text_of which session.now.base items)) }
    ensures front { result ≢ Status.Done
        → Compiles session.now.known session.now.text
        (λ items. Grows (O.state out.old) (O.state out.new) (text_of which session.now.base items)) }
    ensures status { result ≡ (if (O.state out.new).failed then Status.Failed else Status.Done) }
    ensures told { result ≢ Status.Done
        → Complains (O.is_closed out.new) (E.state err.old) (E.state err.new)
        (codes "rpcgen: output cannot be written\n") }
    ensures quiet { result ≡ Status.Done → err.new ≡ err.old }
{
    if is_written(which, session, out) {
        return Status::Done;
    }
    complain_of_output("rpcgen", out, err);
    Status::Failed
}

/// Opens the text of a file, writes what is asked for to the output, and answers the status: `Done` where
/// that was written, `Faulty` where the text has faults, which are written one a line, or explained where
/// that is asked for, and `Failed` where the run could not be carried out, which it tells, unless the
/// output's reader has enough.
///
/// The output is opened only where the text has no fault, and a whole text or nothing stands under its name
/// that did not before. Where faults are explained, the names of the text that clash in C are told after it.
/// Where clashes count as faults, `args.strict`, they are told in its place, and the status is `Faulty`.
pub fn gen_run<O: Output, E: Sink>(
    alloc: Global,
    which: Which,
    args: &GenArgs,
    how: &Opening,
    bytes: &[u8],
    output: &mut O,
    err: &mut E,
) -> Status
    ensures faulty { result ≡ Status.Faulty → CompilesBy how.now bytes.now (λ items.
        IsFaulty args.now.strict how.now args.now.file.now bytes.now items
        (E.state err.old) (E.state err.new)) }
    ensures too_large { most_text < length bytes.now → result ≡ Status.Failed }
    ensures clean { result ≡ Status.Done → IsFaultless how.now bytes.now }
    ensures written { result ≡ Status.Done → (opened : O.Opened) × (left : O.Opened)
        × CompilesBy how.now bytes.now
        (λ items. Appends (O.Opened.state opened).bytes (O.Opened.state left).bytes
        (text_of which (base_of args.now.file.now) items)) }
    ensures failed { result ≡ Status.Failed → NotGenerated how.now args.now bytes.now
        (λ is_closed. (left : O.Opened) × IsTrue (O.Opened.state left).failed
        × (O.Opened.is_closed left ≡ is_closed))
        (E.state err.old) (E.state err.new) }
    ensures good { result ≡ Status.Done → CompilesBy how.now bytes.now (λ items.
        IsGood args.now.strict how.now.style args.now.file.now bytes.now items
        (E.state err.old) (E.state err.new)) }
    ensures quiet { IsPlain how.now.style → result ≡ Status.Done → err.new ≡ err.old }
    ensures whole { result ≡ Status.Done
        → CompilesBy how.now bytes.now (λ items. Holds (O.standing output.old) (O.standing output.new)
        (text_of which (base_of args.now.file.now) items)) }
    ensures as_it_was { result ≢ Status.Done → O.standing output.new ≡ O.standing output.old }
    ensures untouched { result ≡ Status.Faulty → output.new ≡ output.old }
    ensures faultless { IsFaultless how.now bytes.now ⊎ (output.new ≡ output.old) }
    ensures tidy { O.has_draft output.old ≡ false → O.has_draft output.new ≡ false }
{
    let session = match gen_open(alloc, args.file, bytes, how, err) {
        Ok(session) => session,
        Err(status) => return status,
    };
    let status = write_checked(alloc, which, args, how, &session, output, err);
    // The process ends next, and gives all memory back at once.
    mem::forget(session);
    status
}

/// Writes what is asked for of a text without faults, and tells its names that clash in C as they are to be
/// told, and answers the status: `Faulty` where they count as faults and there are some, which are told
/// alone, and `Failed` where the text could not be written, which it tells.
fn write_checked<O: Output, E: Sink>(
    alloc: Global,
    which: Which,
    args: &GenArgs,
    how: &Opening,
    session: &Session,
    output: &mut O,
    err: &mut E,
) -> Status
    ensures faulty { result ≡ Status.Faulty → IsTrue args.now.strict
        × Compiles session.now.known session.now.text (λ items. TellsClashes args.now.file.now
        session.now.text items (E.state err.old) (E.state err.new)) }
    ensures good { result ≡ Status.Done → Compiles session.now.known session.now.text (λ items.
        IsGood args.now.strict how.now.style args.now.file.now session.now.text items
        (E.state err.old) (E.state err.new)) }
    ensures quiet { IsPlain how.now.style → result ≡ Status.Done → err.new ≡ err.old }
    ensures written { result ≡ Status.Done → (opened : O.Opened) × (left : O.Opened)
        × Compiles session.now.known session.now.text
        (λ items. Appends (O.Opened.state opened).bytes (O.Opened.state left).bytes
        (text_of which session.now.base items)) }
    ensures failed { result ≡ Status.Failed → NotWritten args.now
        (λ is_closed. (left : O.Opened) × IsTrue (O.Opened.state left).failed
        × (O.Opened.is_closed left ≡ is_closed))
        (E.state err.old) (E.state err.new) }
    ensures whole { result ≡ Status.Done
        → Compiles session.now.known session.now.text
        (λ items. Holds (O.standing output.old) (O.standing output.new)
        (text_of which session.now.base items)) }
    ensures as_it_was { result ≢ Status.Done → O.standing output.new ≡ O.standing output.old }
    ensures untouched { result ≡ Status.Faulty → output.new ≡ output.old }
    ensures tidy { O.has_draft output.old ≡ false → O.has_draft output.new ≡ false }
{
    let list = match told_warnings(alloc, how, args.strict, session) {
        Ok(list) => list,
        Err(NoMemory) => {
            tell_of_file("rpcgen", "out of memory", "\n", err);
            return Status::Failed;
        }
    };
    if are_faults(args.strict, &list) {
        say(args.file, &list, err);
        return Status::Faulty;
    }
    write_and_say(which, args, session, &list, output, err)
}

/// Opens the output and writes a generated text, and then tells these names that clash; and answers the
/// status: `Failed` where the output cannot be opened or fails, which it tells.
fn write_and_say<O: Output, E: Sink>(
    which: Which,
    args: &GenArgs,
    session: &Session,
    list: &[Warning],
    output: &mut O,
    err: &mut E,
) -> Status
    ensures written { result ≡ Status.Done → (opened : O.Opened) × (left : O.Opened)
        × Compiles session.now.known session.now.text
        (λ items. Appends (O.Opened.state opened).bytes (O.Opened.state left).bytes
        (text_of which session.now.base items)) }
    ensures status { result ≢ Status.Faulty }
    ensures failed { result ≡ Status.Failed → NotWritten args.now
        (λ is_closed. (left : O.Opened) × IsTrue (O.Opened.state left).failed
        × (O.Opened.is_closed left ≡ is_closed))
        (E.state err.old) (E.state err.new) }
    ensures said { result ≡ Status.Done → TellsThem args.now.file.now (map view_warning list.now)
        (E.state err.old) (E.state err.new) }
    ensures quiet { list.now ≡ [] → result ≡ Status.Done → err.new ≡ err.old }
    ensures whole { result ≡ Status.Done
        → Compiles session.now.known session.now.text
        (λ items. Holds (O.standing output.old) (O.standing output.new)
        (text_of which session.now.base items)) }
    ensures as_it_was { result ≢ Status.Done → O.standing output.new ≡ O.standing output.old }
    ensures tidy { O.has_draft output.old ≡ false → O.has_draft output.new ≡ false }
{
    match write_output(which, args, session, output, err) {
        Status::Done => {
            say(args.file, list, err);
            Status::Done
        }
        Status::Faulty => Status::Faulty,
        Status::Failed => Status::Failed,
    }
}

/// Opens the output and writes a generated text, and answers the status: `Failed` where the output cannot be
/// opened or fails, which it tells.
fn write_output<O: Output, E: Sink>(
    which: Which,
    args: &GenArgs,
    session: &Session,
    output: &mut O,
    err: &mut E,
) -> Status
    ensures written { result ≡ Status.Done → (opened : O.Opened) × (left : O.Opened)
        × Compiles session.now.known session.now.text
        (λ items. Appends (O.Opened.state opened).bytes (O.Opened.state left).bytes
        (text_of which session.now.base items)) }
    ensures status { result ≢ Status.Faulty }
    ensures failed { result ≡ Status.Failed → NotWritten args.now
        (λ is_closed. (left : O.Opened) × IsTrue (O.Opened.state left).failed
        × (O.Opened.is_closed left ≡ is_closed))
        (E.state err.old) (E.state err.new) }
    ensures quiet { result ≡ Status.Done → err.new ≡ err.old }
    ensures whole { result ≡ Status.Done
        → Compiles session.now.known session.now.text
        (λ items. Holds (O.standing output.old) (O.standing output.new)
        (text_of which session.now.base items)) }
    ensures as_it_was { result ≢ Status.Done → O.standing output.new ≡ O.standing output.old }
    ensures tidy { O.has_draft output.old ≡ false → O.has_draft output.new ≡ false }
{
    match output.open() {
        Ok(opened) => write_opened(which, args, session, opened, output, err),
        Err(fault) => {
            tell_unopened_output(fault, args, err);
            Status::Failed
        }
    }
}

/// Writes a generated text to what was opened, gives that the output's name where it took all, and answers
/// the status: `Failed` where it fails, which it tells.
fn write_opened<O: Output, E: Sink>(
    which: Which,
    args: &GenArgs,
    session: &Session,
    opened: O::Opened,
    output: &mut O,
    err: &mut E,
) -> Status
    ensures written { result ≡ Status.Done → (left : O.Opened)
        × Compiles session.now.known session.now.text
        (λ items. Appends (O.Opened.state opened).bytes (O.Opened.state left).bytes
        (text_of which session.now.base items)
        × IsNamed (O.standing output.new) (O.Opened.state left).bytes) }
    ensures status { result ≢ Status.Faulty }
    ensures failed { result ≡ Status.Failed → NotWritten args.now
        (λ is_closed. (left : O.Opened) × IsTrue (O.Opened.state left).failed
        × (O.Opened.is_closed left ≡ is_closed))
        (E.state err.old) (E.state err.new) }
    ensures quiet { result ≡ Status.Done → err.new ≡ err.old }
    ensures as_it_was { result ≢ Status.Done → O.standing output.new ≡ O.standing output.old }
    ensures tidy { O.has_draft output.new ≡ false }
{
    let mut opened = opened;
    match gen_write(which, session, &mut opened, err) {
        Status::Done => {
            if output.keep(opened) {
                return Status::Done;
            }
            tell_no_output(args, err);
        }
        _ => take_away(opened, output),
    }
    Status::Failed
}

/// Takes away what an output did not take whole.
fn take_away<O: Output>(opened: O::Opened, output: &mut O)
    ensures standing { O.standing output.new ≡ O.standing output.old }
    ensures tidy { O.has_draft output.new ≡ false }
{
    output.let_go(opened);
}

/// Writes why the output is not opened.
fn tell_unopened_output<E: Sink>(fault: OutputFault, args: &GenArgs, err: &mut E)
    ensures { IsTold (E.state err.old) (E.state err.new) (output_told args.now fault) }
{
    match fault {
        OutputFault::Refused => tell_no_output(args, err),
        OutputFault::NoMemory => tell_of_file("rpcgen", "out of memory", "\n", err),
    }
}

/// Writes that the output cannot be written.
fn tell_no_output<E: Sink>(args: &GenArgs, err: &mut E)
    ensures { IsTold (E.state err.old) (E.state err.new) (no_output_told args.now) }
{
    let name = args.output.unwrap_or("-");
    tell_of_file("rpcgen", name, ": cannot be written\n", err);
}
