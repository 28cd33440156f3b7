//! What is answered to a command line that no run comes of.

ghost use Rattle.std.specs.Prelude.{◌≡◌, List, ℕ};
ghost use Rattle.clap.specs.Words.{kind_of};
ghost use Rattle.x_streams.specs.Writing.{Writes};
ghost use Rattle.x_streams.specs.Streams.{Stream};
ghost use Rattle.x_args.specs.Telling.{IsTold};
ghost use Rattle.x_args.specs.Answering.{help_text, refused_told, version_text, AnswersWords};
ghost use Rattle.x_args.specs.Answering.{IsOneLine, IsRefused, IsShown};

use crate::complaint::{complain_of_output, tell_of_file};
use crate::manual::{Manual, VERSION};
use crate::status::Status;
use clap::Error;
use clap::error::ErrorKind;
use memchr::memchr;
use std::alloc::Global;
use x_text::{Outlet, Pen, Sink};

/// Answers words of which `clap` read no arguments: it shows the help or the version where they ask for it,
/// or tells why they are refused, and answers the status.
pub fn answer_words<O: Outlet, E: Sink>(
    alloc: Global,
    manual: &Manual,
    error: &Error,
    out: &mut O,
    err: &mut E,
) -> Status
    ensures answers { AnswersWords manual.now (kind_of error.now) (O.is_closed out.new)
        (O.state out.old) (O.state out.new) (E.state err.old) (E.state err.new) result }
    ensures quiet { result ≡ Status.Done → err.new ≡ err.old }
{
    match error.kind() {
        ErrorKind::DisplayHelp => show_help(manual, out, err),
        ErrorKind::DisplayVersion => show_version(manual, out, err),
        _ => {
            tell_refused(alloc, manual, error, err);
            Status::Failed
        }
    }
}

/// Shows the help of a program.
fn show_help<O: Outlet, E: Sink>(manual: &Manual, out: &mut O, err: &mut E) -> Status
    ensures shown { IsShown manual.now.name.now (help_text manual.now) (O.is_closed out.new)
        (O.state out.old) (O.state out.new) (E.state err.old) (E.state err.new) result }
    ensures quiet { result ≡ Status.Done → err.new ≡ err.old }
{
    let mut pen = Pen::new();
    pen.add(b"usage: ", out);
    pen.add(manual.usage.as_bytes(), out);
    pen.add(b"\n\n", out);
    pen.add(manual.help.as_bytes(), out);
    end_showing(pen, manual, out, err)
}

/// Shows the version of a program.
fn show_version<O: Outlet, E: Sink>(manual: &Manual, out: &mut O, err: &mut E) -> Status
    ensures shown { IsShown manual.now.name.now (version_text manual.now) (O.is_closed out.new)
        (O.state out.old) (O.state out.new) (E.state err.old) (E.state err.new) result }
    ensures quiet { result ≡ Status.Done → err.new ≡ err.old }
{
    let mut pen = Pen::new();
    pen.add(manual.name.as_bytes(), out);
    pen.add(b" ", out);
    pen.add(VERSION.as_bytes(), out);
    pen.add(b"\n", out);
    end_showing(pen, manual, out, err)
}

/// Writes what a pen held back, has the output pass it on, and answers the status: `Failed` where the output
/// fails, which it tells.
fn end_showing<O: Outlet, E: Sink>(pen: Pen, manual: &Manual, out: &mut O, err: &mut E) -> Status
    ensures shown { (start : Stream) (text : List ℕ) → Writes start text pen (O.state out.old)
        → IsShown manual.now.name.now text (O.is_closed out.new) start (O.state out.new)
        (E.state err.old) (E.state err.new) result }
    ensures quiet { result ≡ Status.Done → err.new ≡ err.old }
{
    let mut pen = pen;
    pen.flush(out);
    if pen.has_stopped() {
        complain_of_output(manual.name, out, err);
        return Status::Failed;
    }
    Status::Done
}

/// Writes why words are refused.
fn tell_refused<E: Sink>(alloc: Global, manual: &Manual, error: &Error, err: &mut E)
    ensures { IsRefused manual.now (kind_of error.now) (E.state err.old) (E.state err.new) }
{
    match error.kind() {
        ErrorKind::OutOfMemory => tell_of_file(manual.name, "out of memory", "\n", err),
        ErrorKind::MissingRequiredArgument => tell_usage(manual, b"FILE is missing", err),
        _ => match format!(in alloc; "{error}") {
            Ok(text) => tell_usage(manual, reason(text.as_bytes()), err),
            Err(_) => tell_of_file(manual.name, "out of memory", "\n", err),
        },
    }
}

/// What `clap` says is wrong: the first line of its text.
fn reason(text: &[u8]) -> &[u8]
    ensures { IsOneLine result.now }
{
    let text = text.strip_prefix(b"error: ").unwrap_or(text);
    match memchr(b'\n', text) {
        Some(end) => &text[..end],
        None => text,
    }
}

/// Writes what is wrong with words, what a command line looks like, and where more is said.
fn tell_usage<E: Sink>(manual: &Manual, why: &[u8], err: &mut E)
    ensures { IsTold (E.state err.old) (E.state err.new) (refused_told manual.now why.now) }
{
    let mut pen = Pen::new();
    pen.add(manual.name.as_bytes(), err);
    pen.add(b": ", err);
    pen.add(why, err);
    pen.add(b"\nusage: ", err);
    pen.add(manual.usage.as_bytes(), err);
    pen.add(b"\ntry '", err);
    pen.add(manual.name.as_bytes(), err);
    pen.add(b" --help'\n", err);
    let _ = pen.finish(err);
}
