//! The command line of `rpcgen`, and the text that it asks for.

ghost use Rattle.std.specs.Prelude.{◌≡◌, ◌≢◌, ◌++◌, None, IfOk, List, codes, map};
ghost use Rattle.clap.specs.Words.{FailsBy, Text, app_of, fault_of, matches_of};
ghost use Rattle.x_args.specs.Telling.{IsTold};
ghost use Rattle.x_args.specs.Args.{AlwaysHas, IsChain, IsGenArgs, asked_by, gen_app, letter_ids};
ghost use Rattle.x_args.specs.Args.{lettered_app, only_of, report_ids, with_reports};

use crate::arguments::{file, flag, is_given, plain_command, request, valued};
use crate::before_args::{BeforeArgs, before_args, with_before};
use crate::complaint::complain;
use clap::{ArgAction, Command, Error};
use std::alloc::{AllocError, Global};
use std::convert::AsStr;
use x_pieces::Which;
use x_text::Sink;

/// What a command line of `rpcgen` asks for.
#[derive(Debug, Drop, PartialEq, Eq)]
pub struct GenArgs<'a> {
    /// `-c`: the XDR routines are wanted.
    pub routines: bool,
    /// `-h`: the header is wanted.
    pub header: bool,
    /// `-l`: the client's stubs are wanted.
    pub stubs: bool,
    /// `-t`: the server's tables are wanted.
    pub table: bool,
    /// `-o OUT`: the file that the text goes to, in place of standard output.
    pub output: Option<&'a str>,
    /// `--explain`: faults are explained.
    pub explains: bool,
    /// `--plain`: they are not, also on a terminal.
    pub plain: bool,
    /// `--strict`: a text with names that clash in C is not written.
    pub strict: bool,
    /// `--known FILE`, `--c-types`, `--foreign`: what stands before the text.
    pub before: BeforeArgs<'a>,
    /// FILE: the text that is read.
    pub file: &'a str,
}

/// Reads a command line of `rpcgen`; the first of `words` is the program's name, as in `env::args`.
///
/// # Errors
/// The words ask for help or the version, or are no command line of `rpcgen`, or memory ran out.
pub fn gen_args<'a, S: AsStr>(alloc: Global, words: &'a [S]) -> Result<GenArgs<'a>, Error>
    ensures reads { IfOk result (IsGenArgs (matches_of gen_app (map S.text words.entry.now))) }
    ensures refuses { FailsBy (fault_of gen_app (map S.text words.entry.now)) result }
{
    let matches = gen_command(alloc)?.try_get_matches_from(words)?;
    Ok(GenArgs {
        routines: is_given(&matches, "routines"),
        header: is_given(&matches, "header"),
        stubs: is_given(&matches, "stubs"),
        table: is_given(&matches, "table"),
        output: matches.get_str("output"),
        explains: is_given(&matches, "explain"),
        plain: is_given(&matches, "plain"),
        strict: is_given(&matches, "strict"),
        before: before_args(alloc, &matches)?,
        file: matches.get_str("file").unwrap(),
    })
}

/// The command line of `rpcgen` with a letter.
fn gen_command<'a>(alloc: Global) -> Result<Command<'a>, AllocError>
    ensures app { IfOk result (λ c. app_of c ≡ gen_app) }
    ensures file { IfOk result (AlwaysHas (codes "file")) }
{
    let command = with_reports(alloc, lettered_command(alloc)?)?;
    with_before(alloc, command)?.arg(file(alloc))
}

/// The letters, and OUT.
fn lettered_command<'a>(alloc: Global) -> Result<Command<'a>, AllocError>
    ensures app { IfOk result (λ c. app_of c ≡ lettered_app) }
    ensures chain { IfOk result (IsChain letter_ids) }
{
    plain_command(alloc, "rpcgen")?
        .arg(flag(alloc, "routines", 'c'))?
        .arg(flag(alloc, "header", 'h'))?
        .arg(flag(alloc, "stubs", 'l'))?
        .arg(flag(alloc, "table", 't'))?
        .arg(valued(alloc, "output", 'o', "OUT"))
}

/// `--explain`, `--plain` and `--strict`, after what a command has.
pub fn with_reports<'a>(alloc: Global, command: Command<'a>) -> Result<Command<'a>, AllocError>
    ensures app { IfOk result (λ c. app_of c ≡ with_reports (app_of command.entry)) }
    ensures chain { IfOk result
        (λ c. (ids : List Text) → IsChain ids command.entry → IsChain (ids ++ report_ids) c) }
{
    command
        .arg(request(alloc, "explain", "explain", ArgAction::SetTrue))?
        .arg(request(alloc, "plain", "plain", ArgAction::SetTrue))?
        .arg(request(alloc, "strict", "strict", ArgAction::SetTrue))
}

/// The text that a command line asks for: exactly one letter tells it.
pub fn gen_mode<E: Sink>(args: &GenArgs, err: &mut E) -> Option<Which>
    ensures mode { result ≡ only_of (asked_by args.now) }
    ensures told { result ≡ None
        → IsTold (E.state err.old) (E.state err.new) (codes "rpcgen: exactly one of -c, -h, -l, -t\n") }
    ensures quiet { result ≢ None → err.new ≡ err.old }
{
    let only = only_letter(args);
    if only.is_none() {
        complain("rpcgen: exactly one of -c, -h, -l, -t\n", err);
    }
    only
}

/// The text of the letter, where there is exactly one.
fn only_letter(args: &GenArgs) -> Option<Which>
    ensures { result ≡ only_of (asked_by args.now) }
{
    match (args.routines, args.header, args.stubs, args.table) {
        (true, false, false, false) => Some(Which::Routines),
        (false, true, false, false) => Some(Which::Header),
        (false, false, true, false) => Some(Which::Stubs),
        (false, false, false, true) => Some(Which::Table),
        _ => None,
    }
}
