//! What `rpcgen --check` does: it reports the faults of files, and writes no text.

ghost use Rattle.std.specs.Prelude.{◌≡◌, ◌<◌, codes, length, map};
ghost use Rattle.x_generating.specs.Checking.{AreChecked, IsChecked};
ghost use Rattle.x_opening.specs.Opened.{IsFaultless, NotOpened};
ghost use Rattle.x_opening.specs.Opening.{CompilesBy};
ghost use Rattle.x_generating.specs.Warnings.{IsFaulty, IsGood};
ghost use Rattle.x_text.specs.Limits.{most_text};

use crate::rpcgen::gen_open;
use crate::rpcgen::warnings::warn;
use std::alloc::Global;
use x_args::{CheckArgs, Status};
use x_opening::{Opening, read_text};
use x_text::Sink;

/// Where faults are reported, and where it may be shown meanwhile how far the check of many files is.
pub trait Screen: Sink {
    /// Notes that the check of the next file begins. What is shown of that is gone before the next write, and
    /// no part of what the sink holds.
    fn begin_file(&mut self, file: &str)
        ensures { Self.state self.new ≡ Self.state self.old };
}

/// Reports the faults of a file's text, and answers the status: `Done` where it has none, `Faulty` where it
/// has some, which are written one a line, or explained where that is asked for, and `Failed` where it is too
/// large or memory runs out, which it tells. Where faults are explained, the names of a text without faults
/// that clash in C are told; and where clashes count as faults, `strict`, they are told and make it `Faulty`.
fn check_text<E: Sink>(
    alloc: Global,
    file: &str,
    bytes: &[u8],
    how: &Opening,
    strict: bool,
    err: &mut E,
) -> Status
    ensures faulty { result ≡ Status.Faulty → CompilesBy how.now bytes.now
        (λ items. IsFaulty strict how.now file.now bytes.now items (E.state err.old) (E.state err.new)) }
    ensures too_large { most_text < length bytes.now → result ≡ Status.Failed }
    ensures clean { result ≡ Status.Done → IsFaultless how.now bytes.now }
    ensures failed { result ≡ Status.Failed
        → NotOpened how.now (codes "rpcgen") file.now bytes.now (E.state err.old) (E.state err.new) }
    ensures good { result ≡ Status.Done → CompilesBy how.now bytes.now (λ items.
        IsGood strict how.now.style file.now bytes.now items (E.state err.old) (E.state err.new)) }
{
    match gen_open(alloc, file, bytes, how, err) {
        Ok(session) => warn(alloc, how, strict, file, &session, err),
        Err(status) => status,
    }
}

/// Reads the text of a file and reports its faults. Where it cannot be read that is told.
fn check_file<E: Sink>(
    rt: &HostRuntime,
    file: &str,
    how: &Opening,
    strict: bool,
    err: &mut E,
) -> Status
    ensures { IsChecked strict how.now file.now (E.state err.old) (E.state err.new) result }
{
    match read_text(rt, "rpcgen", file, err) {
        Ok(bytes) => check_text(rt.alloc(), file, &bytes, how, strict, err),
        Err(status) => status,
    }
}

/// Reports the faults of the texts of all files, one file after the other, and answers the worst of their
/// statuses: `Faulty` where a text has faults, or names that clash in C and this counts as a fault, and
/// `Failed` where a file cannot be read, its text is too large or memory runs out for it, which is told. No
/// file keeps those after it from being checked.
pub fn check_run<E: Screen>(
    rt: &HostRuntime,
    args: &CheckArgs<'_>,
    how: &Opening,
    err: &mut E,
) -> Status
    ensures { AreChecked args.now.strict how.now (map (λ f. f.now) args.now.files.items)
        (E.state err.old) (E.state err.new) result }
{
    let mut status = Status::Done;
    for file in &args.files {
        err.begin_file(file);
        status = status.worse(check_file(rt, file, how, args.strict, err));
    }
    status
}
