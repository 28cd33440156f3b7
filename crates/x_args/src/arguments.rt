//! Arguments that stand on several command lines, or several times on one.

ghost use Rattle.std.specs.Prelude.{◌≡◌, IfOk, Some, map, true};
ghost use Rattle.clap.specs.Built.{FitsChain, TakesValue};
ghost use Rattle.clap.specs.Words.{app_of, found_of, rows_of, rule_of};
ghost use Rattle.x_args.specs.Args.{every_of, file_rule, flag_rule, is_in_words, is_own};
ghost use Rattle.x_args.specs.Args.{known_rule, plain_app, request_ids, request_rule, valued_rule, IsChain};

use clap::parser::ValueSource;
use clap::{Arg, ArgAction, ArgMatches, Command};
use std::alloc::{AllocError, Global};

/// A command that knows `--help` and `--version`, which clap answers, and no letter: clap's own help flag has
/// `-h`, a mode of `rpcgen`.
pub fn plain_command<'a>(alloc: Global, name: &'a str) -> Result<Command<'a>, AllocError>
    ensures app { IfOk result (λ c. app_of c ≡ plain_app name.now) }
    ensures chain { IfOk result (IsChain request_ids) }
{
    Command::new(alloc, name)
        .disable_help_flag(true)
        .arg(request(alloc, "asks_help", "help", ArgAction::Help))?
        .arg(request(alloc, "asks_version", "version", ArgAction::Version))
}

/// A word without a letter.
pub fn request<'a>(alloc: Global, id: &'a str, word: &'a str, action: ArgAction) -> Arg<'a>
    requires { is_own id.now ≡ true }
    ensures rule { rule_of result ≡ request_rule id.now word.now action }
    ensures fits { FitsChain result }
{
    Arg::new(alloc, id).long(word).action(action)
}

/// A letter without a value.
pub fn flag<'a>(alloc: Global, id: &'a str, letter: char) -> Arg<'a>
    requires { is_own id.now ≡ true }
    ensures rule { rule_of result ≡ flag_rule id.now (Some letter) }
    ensures fits { FitsChain result }
{
    Arg::new(alloc, id).short(letter).action(ArgAction::SetTrue)
}

/// A letter with a value, which clap calls by this name.
pub fn valued<'a>(alloc: Global, id: &'a str, letter: char, value: &'a str) -> Arg<'a>
    requires { is_own id.now ≡ true }
    ensures rule { rule_of result ≡ valued_rule id.now (Some letter) }
    ensures fits { FitsChain result }
{
    Arg::new(alloc, id)
        .short(letter)
        .value_name(value)
        .action(ArgAction::Set)
}

/// FILE, which has to be there.
pub fn file<'a>(alloc: Global) -> Arg<'a>
    ensures rule { rule_of result ≡ file_rule }
    ensures fits { FitsChain result }
    ensures value { TakesValue result }
{
    Arg::new(alloc, "file")
        .required(true)
        .action(ArgAction::Set)
}

/// `--known FILE`, as often as one likes.
pub fn known<'a>(alloc: Global) -> Arg<'a>
    ensures rule { rule_of result ≡ known_rule }
    ensures fits { FitsChain result }
{
    Arg::new(alloc, "known")
        .long("known")
        .value_name("FILE")
        .action(ArgAction::Append)
}

/// All values of an argument, in their order: none where the words don't have it.
pub fn values<'a>(
    alloc: Global,
    matches: &ArgMatches<'a>,
    id: &str,
) -> Result<Vec<&'a str>, AllocError>
    ensures { IfOk result (λ v. map (λ s. s.now) v.items ≡ every_of id.now (rows_of (found_of matches.now))) }
{
    match matches.get_strs(id) {
        Some(values) => values.to_vec(alloc),
        None => Ok(Vec::new(alloc)),
    }
}

/// Whether the words themselves have the argument.
pub fn is_given(matches: &ArgMatches<'_>, id: &str) -> bool
    ensures { result ≡ is_in_words id.now (rows_of (found_of matches.now)) }
{
    matches.value_source(id) == Some(ValueSource::CommandLine)
}
