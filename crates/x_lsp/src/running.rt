//! A run of `rpcls` over a tap and sinks.

ghost use Rattle.std.specs.Prelude.{◌≡◌, ◌≢◌};
ghost use Rattle.x_documents.specs.Grounds.{ground_of};
ghost use Rattle.x_lsp.specs.Serving.{IsRun, TellsFault};

use crate::serving::{ServeFault, serve};
use std::alloc::Global;
use x_args::{Status, complain_of_output, tell_of_file};
use x_documents::Setting;
use x_hash::HashKey;
use x_text::{Outlet, Sink, Tap};

/// Serves the client of the input, and answers the status: `Done` where it asked to shut down before it ended
/// the run, `Faulty` where it did not, and `Failed` where the run could not be carried out, which it tells,
/// unless the output's reader has enough. Documents are compiled by the setting; tables of names hash by the
/// key.
pub fn serve_run<I: Tap, O: Outlet, E: Sink>(
    alloc: Global,
    hash_key: HashKey,
    setting: Setting,
    input: &mut I,
    out: &mut O,
    err: &mut E,
) -> Status
    ensures run { IsRun (ground_of setting.entry) (I.state input.old) (I.state input.new) (O.state out.old)
        (O.state out.new) (O.is_closed out.new) (E.state err.old) (E.state err.new) result }
    ensures quiet { result ≢ Status.Failed → err.new ≡ err.old }
{
    match serve(alloc, hash_key, setting, input, out) {
        Ok(true) => Status::Done,
        Ok(false) => Status::Faulty,
        Err(fault) => {
            tell_fault(fault, out, err);
            Status::Failed
        }
    }
}

/// Writes why a run stops. Where the output's reader has enough it writes nothing.
fn tell_fault<O: Outlet, E: Sink>(fault: ServeFault, out: &O, err: &mut E)
    ensures { TellsFault (O.is_closed out.now) fault (E.state err.old) (E.state err.new) }
{
    match fault {
        ServeFault::Read { .. } => tell_of_file("rpcls", "-", ": cannot be read\n", err),
        ServeFault::Bad { .. } => {
            let wrong = ": no message of the Language Server Protocol\n";
            tell_of_file("rpcls", "-", wrong, err);
        }
        ServeFault::Write { .. } => complain_of_output("rpcls", out, err),
        ServeFault::NoMemory { .. } => tell_of_file("rpcls", "out of memory", "\n", err),
    }
}
