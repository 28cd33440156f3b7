//! `rpcgen`: writes a text that is generated of a `.x` file, or checks several.
#![tactic(auto)]

mod draft;
mod named;
mod progress;
mod standard;

use named::{Named, lead_to_one_file};
use progress::Progress;
use rpcx::{
    FaultStyle, KnownSources, Opening, RPCGEN, Status, answer_words, asks_check, check_args,
    check_run, explained_style, gen_args, gen_mode, gen_run, read_text, read_words, usual_style,
};
use standard::Standard;
use std::io::Stderr;
use std::process::ExitCode;
use x_text::Out;

/// Whether a file is to be written beside the standard output, and is not what that goes to. One that is read
/// is never taken for the standard output.
fn is_named(rt: &HostRuntime, name: &str, file: &str) -> bool {
    !lead_to_one_file(rt, name, "/dev/stdout") || lead_to_one_file(rt, name, file)
}

/// How faults are reported, by the words that ask for it.
fn style(rt: &HostRuntime, is_asked: bool, is_plain: bool) -> FaultStyle {
    if is_asked {
        explained_style(rt)
    } else if is_plain {
        FaultStyle::Plain
    } else {
        usual_style(rt)
    }
}

/// Carries out the command line. Where that stops early, it answers the status as an error.
fn run(rt: &HostRuntime) -> Result<Status, Status> {
    let mut err = Out::new(rt.stderr());
    let words = read_words(rt, "rpcgen", &mut err)?;
    if asks_check(words.as_slice()) {
        check(rt, words.as_slice(), err)
    } else {
        generate(rt, words.as_slice(), err)
    }
}

/// Reports the faults of files.
fn check(rt: &HostRuntime, words: &[String], err: Out<Stderr>) -> Result<Status, Status> {
    let mut err = err;
    let args = match check_args(rt.alloc(), words) {
        Ok(args) => args,
        Err(error) => {
            let mut out = Out::new(rt.stdout());
            return Err(answer_words(rt.alloc(), &RPCGEN, &error, &mut out, &mut err));
        }
    };
    let style = style(rt, args.explains, args.plain);
    let known = KnownSources::read(rt, "rpcgen", &args.before, style, &mut err)?;
    let how = Opening::of(style, &known, &args.before);
    let mut screen = Progress::new(rt, args.files.len(), err);
    let status = check_run(rt, &args, &how, &mut screen);
    screen.erase();
    Ok(status)
}

/// Writes the text that is generated of a file.
fn generate(rt: &HostRuntime, words: &[String], err: Out<Stderr>) -> Result<Status, Status> {
    let mut err = err;
    let args = match gen_args(rt.alloc(), words) {
        Ok(args) => args,
        Err(error) => {
            let mut out = Out::new(rt.stdout());
            return Err(answer_words(rt.alloc(), &RPCGEN, &error, &mut out, &mut err));
        }
    };
    let Some(which) = gen_mode(&args, &mut err) else {
        return Err(Status::Failed);
    };
    let style = style(rt, args.explains, args.plain);
    let known = KnownSources::read(rt, "rpcgen", &args.before, style, &mut err)?;
    let how = Opening::of(style, &known, &args.before);
    let bytes = read_text(rt, "rpcgen", args.file, &mut err)?;
    let alloc = rt.alloc();
    Ok(match args.output {
        Some(name) if is_named(rt, name, args.file) => {
            let mut output = Named::new(rt, name, args.file);
            gen_run(alloc, which, &args, &how, &bytes, &mut output, &mut err)
        }
        _ => {
            let mut output = Standard { rt };
            gen_run(alloc, which, &args, &how, &bytes, &mut output, &mut err)
        }
    })
}

fn main(rt: HostRuntime) -> ExitCode {
    let (Ok(status) | Err(status)) = run(&rt);
    ExitCode::from(status.code())
}
