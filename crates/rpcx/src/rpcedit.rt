//! What `rpcedit` does over a text that was read, a tap and sinks.

ghost use Rattle.std.specs.Prelude.{◌≡◌, ◌≢◌, ◌<◌, MatchOption, length};
ghost use Rattle.x_streams.specs.Engines.{WorksOn};
ghost use Rattle.x_text.specs.Limits.{most_text};
ghost use Rattle.rpcx.specs.Course.{course};
ghost use Rattle.x_explain.specs.KnownFiles.{places_of_files};
ghost use Rattle.rpcx.specs.Editing.{Answers, AnswersBy, IsStopped, NotRun, found_over};
ghost use Rattle.x_prelude.specs.Followed.{IsOver};
ghost use Rattle.x_script.specs.Situations.{situation};

use std::alloc::Global;
use std::mem;
use x_args::{EditArgs, Status};
use x_explain::KnownFiles;
use x_hash::HashKey;
use x_opening::{Opening, base_of_file, open_followed, tell_stop, tell_unopened};
use x_prelude::FollowedText;
use x_script::{Outcome, ScriptFile, run_script};
use x_text::{Outlet, Sink, Tap, TextFault};

/// As [`edit_run_keyed`], over tables that hash by a key which is made of the text. Who writes a script may
/// know it.
pub fn edit_run<I: Tap, O: Outlet, E: Sink>(
    alloc: Global,
    args: &EditArgs,
    how: &Opening,
    bytes: &[u8],
    input: &mut I,
    out: &mut O,
    err: &mut E,
) -> Status
    ensures too_large { most_text < length bytes.now → result ≡ Status.Failed }
    ensures failed { result ≡ Status.Failed
        → NotRun how.now args.now.file.now bytes.now
        (course (I.state input.old) (I.state input.new) (O.state out.old) (O.state out.new))
        (O.is_closed out.new) (E.state err.old) (E.state err.new) }
    ensures quiet { result ≢ Status.Failed → err.new ≡ err.old }
    ensures reading { result ≢ Status.Failed → (I.state input.new).failed ≡ (I.state input.old).failed }
    ensures working { result ≢ Status.Failed → WorksOn (O.state out.old).failed (O.state out.new).failed }
    ensures answers { MatchOption (I.state input.old).bytes (Unit {0})
        (λ script. AnswersBy how.now script args.now.file.now bytes.now
        (O.state out.old) (O.state out.new) result) }
{
    let hash_key = HashKey::of_bytes(bytes);
    edit_run_keyed(alloc, hash_key, args, how, bytes, input, out, err)
}

/// Opens the text of a file, carries out the script of the input, and answers the status: `Done` where each
/// line was carried out, `Faulty` where one was refused, and `Failed` where the run could not be carried out,
/// which it tells, unless the output's reader has enough. Tables of the text's names hash by the key, which
/// whoever wrote the text or the script does not know.
pub fn edit_run_keyed<I: Tap, O: Outlet, E: Sink>(
    alloc: Global,
    hash_key: HashKey,
    args: &EditArgs,
    how: &Opening,
    bytes: &[u8],
    input: &mut I,
    out: &mut O,
    err: &mut E,
) -> Status
    ensures too_large { most_text < length bytes.now → result ≡ Status.Failed }
    ensures failed { result ≡ Status.Failed
        → NotRun how.now args.now.file.now bytes.now
        (course (I.state input.old) (I.state input.new) (O.state out.old) (O.state out.new))
        (O.is_closed out.new) (E.state err.old) (E.state err.new) }
    ensures quiet { result ≢ Status.Failed → err.new ≡ err.old }
    ensures reading { result ≢ Status.Failed → (I.state input.new).failed ≡ (I.state input.old).failed }
    ensures working { result ≢ Status.Failed → WorksOn (O.state out.old).failed (O.state out.new).failed }
    ensures answers { MatchOption (I.state input.old).bytes (Unit {0})
        (λ script. AnswersBy how.now script args.now.file.now bytes.now
        (O.state out.old) (O.state out.new) result) }
{
    let mut text = match open_followed(alloc, how, hash_key, base_of_file(args.file), bytes) {
        Ok(text) => text,
        Err(fault) => {
            tell_unopened("rpcedit", args.file, fault, err);
            return Status::Failed;
        }
    };
    let Ok(places) = how.known.places(alloc) else {
        tell_unopened("rpcedit", args.file, TextFault::NoMemory, err);
        return Status::Failed;
    };
    let status = answer_over(alloc, how, &places, &mut text, args.file, input, out, err);
    // The process ends next, and gives all memory back at once.
    mem::forget(text);
    status
}

/// Carries out the script of the input over the text of `file`, where the known files declare names at these
/// places, and answers the status.
fn answer_over<I: Tap, O: Outlet, E: Sink>(
    alloc: Global,
    how: &Opening,
    places: &KnownFiles,
    text: &mut FollowedText,
    file: &str,
    input: &mut I,
    out: &mut O,
    err: &mut E,
) -> Status
    requires { IsOver text.now }
    ensures stopped { result ≡ Status.Failed
        → IsStopped (found_over how.now file.now (places_of_files places.now.list.items) text.old)
        (course (I.state input.old) (I.state input.new) (O.state out.old) (O.state out.new))
        (O.is_closed out.new) (E.state err.old) (E.state err.new) }
    ensures quiet { result ≢ Status.Failed → err.new ≡ err.old }
    ensures reading { result ≢ Status.Failed → (I.state input.new).failed ≡ (I.state input.old).failed }
    ensures working { result ≢ Status.Failed → WorksOn (O.state out.old).failed (O.state out.new).failed }
    ensures answers { MatchOption (I.state input.old).bytes (Unit {0})
        (λ script. Answers script
        (found_over how.now file.now (places_of_files places.now.list.items) text.old)
        (O.state out.old) (O.state out.new) result) }
{
    let about = ScriptFile {
        name: file,
        known: places,
        is_plain: how.known.is_plain,
    };
    answer_input(alloc, text, &about, input, out, err)
}

/// Carries out the script of the input over the text of a file, and answers the status.
fn answer_input<I: Tap, O: Outlet, E: Sink>(
    alloc: Global,
    text: &mut FollowedText,
    file: &ScriptFile,
    input: &mut I,
    out: &mut O,
    err: &mut E,
) -> Status
    requires { IsOver text.now }
    ensures stopped { result ≡ Status.Failed → IsStopped (situation file.now text.old)
        (course (I.state input.old) (I.state input.new) (O.state out.old) (O.state out.new))
        (O.is_closed out.new) (E.state err.old) (E.state err.new) }
    ensures quiet { result ≢ Status.Failed → err.new ≡ err.old }
    ensures reading { result ≢ Status.Failed → (I.state input.new).failed ≡ (I.state input.old).failed }
    ensures working { result ≢ Status.Failed → WorksOn (O.state out.old).failed (O.state out.new).failed }
    ensures answers { MatchOption (I.state input.old).bytes (Unit {0})
        (λ script. Answers script (situation file.now text.old) (O.state out.old) (O.state out.new) result) }
{
    match run_script(alloc, text, file, input, out) {
        Ok(Outcome::Clean) => Status::Done,
        Ok(Outcome::Refused) => Status::Faulty,
        Err(fault) => {
            tell_stop("rpcedit", "-", fault, out, err);
            Status::Failed
        }
    }
}
