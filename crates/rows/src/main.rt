//! `rows`: reads a table, a case a line, and prints each line with the answer of its case: a table that holds
//! the right answers is printed as it is.
//!
//! An empty line, and one that begins with `#`, is printed as it is. Of any other the part before the last `
//! => ` is the case, or all of it where there is none.
#![tactic(auto)]

mod answer;
mod case;
mod kept;
mod refusal;

use crate::answer::answer;
use std::io::{self, BufRead, BufReader, BufWriter, ErrorKind, Write};
use std::process::ExitCode;

/// The status of a run that could not be carried out.
const FAILED: u8 = 2;

/// Prints a line of a table with the answer of its case.
fn print_line(rt: &HostRuntime, line: &str, out: &mut impl Write) -> io::Result<()> {
    if line.is_empty() || line.starts_with('#') {
        return writeln!(out, "{line}");
    }
    let case = match line.rsplit_once(" => ") {
        Some((case, _)) => case,
        None => line,
    };
    match answer(rt.alloc(), case) {
        Ok(answer) => writeln!(out, "{case} => {answer}"),
        Err(_) => Err(io::Error::from(ErrorKind::OutOfMemory)),
    }
}

/// Prints the table that stands on standard input.
fn print_table(rt: &HostRuntime) -> io::Result<()> {
    let mut out = BufWriter::new(rt.alloc(), rt.stdout())?;
    let table = BufReader::new(rt.alloc(), rt.stdin())?;
    for line in table.lines(rt.alloc()) {
        print_line(rt, &line?, &mut out)?;
    }
    out.flush()
}

fn main(rt: HostRuntime) -> ExitCode {
    match print_table(&rt) {
        Ok(()) => ExitCode::SUCCESS,
        Err(_) => ExitCode::from(FAILED),
    }
}
