//! The command line of `rpcdump`, and what it asks for.

ghost use Rattle.std.specs.Prelude.{◌≡◌, ◌≢◌, None, IfOk, codes, map};
ghost use Rattle.clap.specs.Words.{FailsBy, app_of, fault_of, matches_of};
ghost use Rattle.x_args.specs.Telling.{IsTold};
ghost use Rattle.x_args.specs.Args.{AlwaysHas, IsDumpArgs, dump_app, mode_of};

use crate::arguments::{file, flag, is_given, known, plain_command, request, valued, values};
use crate::before_args::BeforeArgs;
use crate::complaint::complain;
use clap::{ArgAction, Command, Error};
use std::alloc::{AllocError, Global};
use std::convert::AsStr;
use x_text::Sink;

/// What a command line of `rpcdump` asks for.
#[derive(Debug, Drop, PartialEq, Eq)]
pub struct DumpArgs<'a> {
    /// `-x SCHEMA`: the text by whose types values are read, in place of that of NFS version 2.
    pub schema: Option<&'a str>,
    /// `-b`: the file is one message alone.
    pub bare: bool,
    /// `-t TYPE`: the file is one value of this type alone.
    pub type_name: Option<&'a str>,
    /// `--known FILE`, `--c-types`: what stands before the text of the types. It is never `foreign`: a type
    /// of unknown layout has no values.
    pub before: BeforeArgs<'a>,
    /// FILE: the bytes that are shown.
    pub file: &'a str,
}

/// Reads a command line of `rpcdump`; the first of `words` is the program's name.
///
/// # Errors
/// The words ask for help or the version, or are no command line of `rpcdump`, or memory ran out.
pub fn dump_args<'a, S: AsStr>(alloc: Global, words: &'a [S]) -> Result<DumpArgs<'a>, Error>
    ensures reads { IfOk result (IsDumpArgs (matches_of dump_app (map S.text words.entry.now))) }
    ensures refuses { FailsBy (fault_of dump_app (map S.text words.entry.now)) result }
{
    let matches = dump_command(alloc)?.try_get_matches_from(words)?;
    Ok(DumpArgs {
        schema: matches.get_str("schema"),
        bare: is_given(&matches, "bare"),
        type_name: matches.get_str("type"),
        before: BeforeArgs {
            known: values(alloc, &matches, "known")?,
            c_types: is_given(&matches, "c_types"),
            foreign: false,
        },
        file: matches.get_str("file").unwrap(),
    })
}

// The letters and values of `rpcdump`.
fn dump_command<'a>(alloc: Global) -> Result<Command<'a>, AllocError>
    ensures app { IfOk result (λ c. app_of c ≡ dump_app) }
    ensures file { IfOk result (AlwaysHas (codes "file")) }
{
    plain_command(alloc, "rpcdump")?
        .arg(valued(alloc, "schema", 'x', "SCHEMA"))?
        .arg(flag(alloc, "bare", 'b'))?
        .arg(valued(alloc, "type", 't', "TYPE"))?
        .arg(known(alloc))?
        .arg(request(alloc, "c_types", "c-types", ArgAction::SetTrue))?
        .arg(file(alloc))
}

/// What the bytes of a file are.
#[derive(Clone, Copy, Debug, PartialEq, Eq)]
pub enum Mode {
    /// A recorded stream.
    Stream,
    /// One message without a record.
    Message,
    /// One value.
    Value,
}

/// What a command line says that the bytes are: it may not say both of `-b` and `-t`.
pub fn dump_mode<E: Sink>(args: &DumpArgs, err: &mut E) -> Option<Mode>
    ensures mode { result ≡ mode_of args.now }
    ensures told { result ≡ None
        → IsTold (E.state err.old) (E.state err.new) (codes "rpcdump: -b and -t exclude each other\n") }
    ensures quiet { result ≢ None → err.new ≡ err.old }
{
    let only = only_mode(args);
    if only.is_none() {
        complain("rpcdump: -b and -t exclude each other\n", err);
    }
    only
}

/// The mode of the letters, where they do not exclude each other.
fn only_mode(args: &DumpArgs) -> Option<Mode>
    ensures { result ≡ mode_of args.now }
{
    match (args.bare, args.type_name.is_some()) {
        (false, false) => Some(Mode::Stream),
        (true, false) => Some(Mode::Message),
        (false, true) => Some(Mode::Value),
        (true, true) => None,
    }
}
