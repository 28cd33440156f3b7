//! The command line of `rpcls`.

ghost use Rattle.std.specs.Prelude.{◌≡◌, IfOk, map};
ghost use Rattle.clap.specs.Words.{FailsBy, app_of, fault_of, matches_of};
ghost use Rattle.x_args.specs.Args.{IsServeArgs, serve_app};

use crate::arguments::{is_given, plain_command, request};
use crate::before_args::{BeforeArgs, before_args, with_before};
use clap::{ArgAction, Command, Error};
use std::alloc::{AllocError, Global};
use std::convert::AsStr;

/// What a command line of `rpcls` asks for.
#[derive(Debug, Drop, PartialEq, Eq)]
pub struct ServeArgs<'a> {
    /// `--stdio`: to serve on standard input and output, as it does anyway.
    pub stdio: bool,
    /// `--known FILE`, `--c-types`, `--foreign`: what stands before each document.
    pub before: BeforeArgs<'a>,
    /// `--fault-directives`: lines for the preprocessor are faults, and not blanked.
    pub faults_directives: bool,
}

/// Reads a command line of `rpcls`; the first of `words` is the program's name.
///
/// # Errors
/// The words ask for help or the version, or are no command line of `rpcls`, or memory ran out.
pub fn serve_args<'a, S: AsStr>(alloc: Global, words: &'a [S]) -> Result<ServeArgs<'a>, Error>
    ensures reads { IfOk result (IsServeArgs (matches_of serve_app (map S.text words.entry.now))) }
    ensures refuses { FailsBy (fault_of serve_app (map S.text words.entry.now)) result }
{
    let matches = serve_command(alloc)?.try_get_matches_from(words)?;
    Ok(ServeArgs {
        stdio: is_given(&matches, "stdio"),
        before: before_args(alloc, &matches)?,
        faults_directives: is_given(&matches, "fault_directives"),
    })
}

// The options of `rpcls`.
fn serve_command<'a>(alloc: Global) -> Result<Command<'a>, AllocError>
    ensures { IfOk result (λ c. app_of c ≡ serve_app) }
{
    let command = plain_command(alloc, "rpcls")?.arg(request(
        alloc,
        "stdio",
        "stdio",
        ArgAction::SetTrue,
    ))?;
    with_before(alloc, command)?.arg(request(
        alloc,
        "fault_directives",
        "fault-directives",
        ArgAction::SetTrue,
    ))
}
