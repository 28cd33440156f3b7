//! The command line of `rpcgen --check`.

ghost use Rattle.std.specs.Prelude.{◌≡◌, true, IfOk, codes, map};
ghost use Rattle.clap.specs.Built.{FitsChain};
ghost use Rattle.clap.specs.Words.{FailsBy, app_of, fault_of, matches_of, rule_of};
ghost use Rattle.x_args.specs.Args.{HasSome, IsCheckArgs, asks_check, check_app, files_rule};

use crate::arguments::{is_given, plain_command, request};
use crate::before_args::{BeforeArgs, before_args, with_before};
use crate::generating_args::with_reports;
use clap::{Arg, ArgAction, Command, Error};
use std::alloc::{AllocError, Global};
use std::convert::AsStr;

/// What a command line of `rpcgen --check` asks for.
#[derive(Debug, Drop)]
pub struct CheckArgs<'a> {
    /// `--explain`: faults are explained.
    pub explains: bool,
    /// `--plain`: they are not, also on a terminal.
    pub plain: bool,
    /// `--strict`: a text with names that clash in C counts as one with faults.
    pub strict: bool,
    /// `--known FILE`, `--c-types`, `--foreign`: what stands before each text.
    pub before: BeforeArgs<'a>,
    /// The files whose texts are checked, in their order.
    pub files: Vec<&'a str>,
}

/// Whether words ask for a check of files: one of them is `--check`, and stands before each `--`. The first
/// of `words` is the program's name.
pub fn asks_check<S: AsStr>(words: &[S]) -> bool
    ensures { result ≡ asks_check (map S.text words.now) }
{
    let Some((_, others)) = words.split_first() else {
        return false;
    };
    for other in others {
        let word = other.as_str();
        if word == "--" {
            return false;
        }
        if word == "--check" {
            return true;
        }
    }
    false
}

/// Reads a command line of `rpcgen --check`; the first of `words` is the program's name.
///
/// # Errors
/// The words ask for help or the version, or are no such command line, or memory ran out.
pub fn check_args<'a, S: AsStr>(alloc: Global, words: &'a [S]) -> Result<CheckArgs<'a>, Error>
    ensures reads { IfOk result (IsCheckArgs (matches_of check_app (map S.text words.entry.now))) }
    ensures refuses { FailsBy (fault_of check_app (map S.text words.entry.now)) result }
{
    let mut command = check_command(alloc)?;
    let matches = command.try_get_matches_from_mut(words)?;
    let files = matches.get_strs("file").unwrap();
    Ok(CheckArgs {
        explains: is_given(&matches, "explain"),
        plain: is_given(&matches, "plain"),
        strict: is_given(&matches, "strict"),
        before: before_args(alloc, &matches)?,
        files: files.to_vec(alloc)?,
    })
}

// The words and files of `rpcgen --check`.
fn check_command<'a>(alloc: Global) -> Result<Command<'a>, AllocError>
    ensures app { IfOk result (λ c. app_of c ≡ check_app) }
    ensures files { IfOk result (HasSome (codes "file")) }
{
    let command = plain_command(alloc, "rpcgen")?.arg(request(
        alloc,
        "check",
        "check",
        ArgAction::SetTrue,
    ))?;
    with_before(alloc, with_reports(alloc, command)?)?.arg(files(alloc))
}

// FILE, once or more often.
fn files<'a>(alloc: Global) -> Arg<'a>
    ensures rule { rule_of result ≡ files_rule }
    ensures fits { FitsChain result }
    ensures required { result.required ≡ true }
{
    Arg::new(alloc, "file")
        .required(true)
        .action(ArgAction::Append)
}
