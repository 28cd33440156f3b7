//! `timings FILE` times the lexing of a file, and then the relexing of one byte typed at several places of
//! it; `timings SCHEMA TYPE MESSAGE` the reading of a message as a value of a type of a `.x` file. Without
//! arguments it does nothing.
#![tactic(auto)]

mod followed;
mod read;
mod relexing;
mod values;

use crate::relexing::time_relexing;
use crate::values::time_value;
use std::process::ExitCode;
use std::{env, io};

/// Times what the words ask for.
fn run(rt: &HostRuntime, words: &[String]) -> io::Result<()> {
    match (words.get(1), words.get(2), words.get(3)) {
        (Some(schema), Some(name), Some(message)) => {
            time_value(rt, schema.as_str(), name.as_str(), message.as_str())
        }
        (Some(file), _, _) => time_relexing(rt, file.as_str()),
        _ => Ok(()),
    }
}

fn main(rt: HostRuntime) -> ExitCode {
    let words: Vec<String> = match env::args(&rt).map(|words| words.collect(rt.alloc())) {
        Ok(Ok(words)) => words,
        _ => return ExitCode::from(2),
    };
    match run(&rt, &words) {
        Ok(()) => ExitCode::SUCCESS,
        Err(_) => ExitCode::from(2),
    }
}
