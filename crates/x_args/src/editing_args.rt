//! The command line of `rpcedit`.

ghost use Rattle.std.specs.Prelude.{◌≡◌, IfOk, codes, map};
ghost use Rattle.clap.specs.Words.{FailsBy, app_of, fault_of, matches_of};
ghost use Rattle.x_args.specs.Args.{AlwaysHas, IsEditArgs, edit_app};

use crate::arguments::{file, plain_command};
use crate::before_args::{BeforeArgs, before_args, with_before};
use clap::{Command, Error};
use std::alloc::{AllocError, Global};
use std::convert::AsStr;

/// What a command line of `rpcedit` asks for.
#[derive(Debug, Drop, PartialEq, Eq)]
pub struct EditArgs<'a> {
    /// `--known FILE`, `--c-types`, `--foreign`: what stands before the text.
    pub before: BeforeArgs<'a>,
    /// FILE: the text that is edited.
    pub file: &'a str,
}

/// Reads a command line of `rpcedit`; the first of `words` is the program's name.
///
/// # Errors
/// The words ask for help or the version, or are no command line of `rpcedit`, or memory ran out.
pub fn edit_args<'a, S: AsStr>(alloc: Global, words: &'a [S]) -> Result<EditArgs<'a>, Error>
    ensures reads { IfOk result (IsEditArgs (matches_of edit_app (map S.text words.entry.now))) }
    ensures refuses { FailsBy (fault_of edit_app (map S.text words.entry.now)) result }
{
    let matches = edit_command(alloc)?.try_get_matches_from(words)?;
    Ok(EditArgs {
        before: before_args(alloc, &matches)?,
        file: matches.get_str("file").unwrap(),
    })
}

// The options and the value of `rpcedit`.
fn edit_command<'a>(alloc: Global) -> Result<Command<'a>, AllocError>
    ensures app { IfOk result (λ c. app_of c ≡ edit_app) }
    ensures file { IfOk result (AlwaysHas (codes "file")) }
{
    with_before(alloc, plain_command(alloc, "rpcedit")?)?.arg(file(alloc))
}
