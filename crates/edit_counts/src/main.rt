//! `edit_counts FILE`: carries out the lines `edit START END [HEX]` of standard input on the text of a file,
//! and prints what work each took or how it was refused. It passes over all other lines. Without arguments it
//! does nothing.
#![tactic(auto)]

use std::io::{self, BufRead, BufReader, BufWriter, ErrorKind, Read, Write};
use std::process::ExitCode;
use std::{env, fs};
use x_script::{Command, parse_command};
use x_session::{Session, Work};
use x_text::{Edit, MAX_TEXT, TextFault};

/// The status of a run that could not be carried out.
const FAILED: u8 = 2;

/// Want of memory, as the error of a run.
fn no_memory() -> io::Error {
    io::Error::from(ErrorKind::OutOfMemory)
}

/// Reads a file, but no more of it than tells that a text can't have so many bytes.
fn read(rt: &HostRuntime, file: &str) -> io::Result<Vec<u8>> {
    let mut bytes = Vec::new(rt.alloc());
    fs::open(rt, file)?
        .take(MAX_TEXT as u64 + 1)
        .read_to_end(&mut bytes)?;
    Ok(bytes)
}

/// Opens the text of a file.
fn open(rt: &HostRuntime, file: &str) -> io::Result<Session> {
    let bytes = read(rt, file)?;
    match Session::open(rt.alloc(), b"t", &bytes) {
        Ok(session) => Ok(session),
        Err(TextFault::NoMemory) => Err(no_memory()),
        Err(_) => Err(io::Error::from(ErrorKind::InvalidInput)),
    }
}

fn print_work(work: &Work, out: &mut impl Write) -> io::Result<()> {
    let (lexed, parsed) = (work.lexed, work.parsed);
    let (checked, moved) = (work.checked, work.moved);
    writeln!(
        out,
        "lexed {lexed} parsed {parsed} checked {checked} moved {moved}"
    )
}

/// Carries an edit out, and prints what work it took or how it was refused.
fn print_edit(session: &mut Session, edit: &Edit, out: &mut impl Write) -> io::Result<()> {
    match session.apply(edit) {
        Ok(work) => print_work(&work, out),
        Err(TextFault::NoMemory) => Err(no_memory()),
        Err(fault) => writeln!(out, "refused {fault}"),
    }
}

/// Carries out the edit that a line asks for, if it asks for one.
fn carry_out(
    rt: &HostRuntime,
    session: &mut Session,
    line: &str,
    out: &mut impl Write,
) -> io::Result<()> {
    let Ok(command) = parse_command(rt.alloc(), line.as_bytes()) else {
        return Err(no_memory());
    };
    match &command {
        Command::Edit { start, end, insert } => {
            let edit = Edit {
                start: *start,
                end: *end,
                insert: insert.bytes(),
            };
            print_edit(session, &edit, out)
        }
        _ => Ok(()),
    }
}

/// Carries out the lines that stand on standard input.
fn run_lines(rt: &HostRuntime, session: &mut Session) -> io::Result<()> {
    let mut out = BufWriter::new(rt.alloc(), rt.stdout())?;
    let script = BufReader::new(rt.alloc(), rt.stdin())?;
    for line in script.lines(rt.alloc()) {
        carry_out(rt, session, &line?, &mut out)?;
    }
    out.flush()
}

fn run(rt: &HostRuntime, file: &str) -> io::Result<()> {
    let mut session = open(rt, file)?;
    run_lines(rt, &mut session)
}

fn main(rt: HostRuntime) -> ExitCode {
    let words: Vec<String> = match env::args(&rt).map(|words| words.collect(rt.alloc())) {
        Ok(Ok(words)) => words,
        _ => return ExitCode::from(FAILED),
    };
    let Some(file) = words.get(1) else {
        return ExitCode::SUCCESS;
    };
    match run(&rt, file.as_str()) {
        Ok(()) => ExitCode::SUCCESS,
        Err(_) => ExitCode::from(FAILED),
    }
}
