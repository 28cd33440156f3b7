//! What stands before a text, by the options of a command line.

ghost use Rattle.std.specs.Prelude.{◌≡◌, ◌++◌, IfOk, List};
ghost use Rattle.clap.specs.Words.{Text, app_of, found_of, rows_of};
ghost use Rattle.x_args.specs.Args.{IsBeforeArgs, IsChain, before_ids, with_before};

use crate::arguments::{is_given, known, request, values};
use clap::{ArgAction, ArgMatches, Command};
use std::alloc::{AllocError, Global};

/// What stands before a text: files of definitions, and names of C.
#[derive(Debug, Drop, PartialEq, Eq)]
pub struct BeforeArgs<'a> {
    /// `--known FILE`, as often as one likes: the files whose definitions are known, in their order.
    pub known: Vec<&'a str>,
    /// `--c-types`: names of C's types that the text uses are taken as what they are on the wire.
    pub c_types: bool,
    /// `--foreign`: names that nobody declares are C's own.
    pub foreign: bool,
}

/// The three options, of a command line that has all of them.
pub fn before_args<'a>(
    alloc: Global,
    matches: &ArgMatches<'a>,
) -> Result<BeforeArgs<'a>, AllocError>
    ensures { IfOk result (IsBeforeArgs (rows_of (found_of matches.now))) }
{
    Ok(BeforeArgs {
        known: values(alloc, matches, "known")?,
        c_types: is_given(matches, "c_types"),
        foreign: is_given(matches, "foreign"),
    })
}

/// The three options, after what a command has.
pub fn with_before<'a>(alloc: Global, command: Command<'a>) -> Result<Command<'a>, AllocError>
    ensures app { IfOk result (λ c. app_of c ≡ with_before (app_of command.entry)) }
    ensures chain { IfOk result
        (λ c. (ids : List Text) → IsChain ids command.entry → IsChain (ids ++ before_ids) c) }
{
    command
        .arg(known(alloc))?
        .arg(request(alloc, "c_types", "c-types", ArgAction::SetTrue))?
        .arg(request(alloc, "foreign", "foreign", ArgAction::SetTrue))
}
