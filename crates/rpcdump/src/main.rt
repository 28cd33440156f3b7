//! `rpcdump`: shows recorded calls, one message or one value.
#![tactic(auto)]

use rpcx::{
    KnownSources, Opening, RPCDUMP, Status, answer_words, dump_args, dump_mode, dump_run,
    read_text, read_words, tell_of_file, usual_style,
};
use std::fs;
use std::process::ExitCode;
use x_text::{In, Out};

/// Carries out the command line. Where that stops early, it answers the status as an error.
fn run(rt: &HostRuntime) -> Result<Status, Status> {
    let mut err = Out::new(rt.stderr());
    let words = read_words(rt, "rpcdump", &mut err)?;
    let args = match dump_args(rt.alloc(), words.as_slice()) {
        Ok(args) => args,
        Err(error) => {
            let mut out = Out::new(rt.stdout());
            return Err(answer_words(rt.alloc(), &RPCDUMP, &error, &mut out, &mut err));
        }
    };
    let Some(mode) = dump_mode(&args, &mut err) else {
        return Err(Status::Failed);
    };
    let style = usual_style(rt);
    let known = KnownSources::read(rt, "rpcdump", &args.before, style, &mut err)?;
    let how = Opening::of(style, &known, &args.before);
    let schema = match args.schema {
        Some(file) => Some(read_text(rt, "rpcdump", file, &mut err)?),
        None => None,
    };
    let Ok(file) = fs::open(rt, args.file) else {
        tell_of_file("rpcdump", args.file, ": cannot be read\n", &mut err);
        return Err(Status::Failed);
    };
    let mut input = In::new(file);
    let mut out = Out::new(rt.stdout());
    let text = schema.as_deref();
    Ok(dump_run(
        rt.alloc(),
        &args,
        mode,
        text,
        &how,
        &mut input,
        &mut out,
        &mut err,
    ))
}

fn main(rt: HostRuntime) -> ExitCode {
    let (Ok(status) | Err(status)) = run(&rt);
    ExitCode::from(status.code())
}
