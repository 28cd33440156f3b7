//! `rpcedit`: carries out a script of edits and questions on a `.x` file.
#![tactic(auto)]

use rpcx::{
    KnownSources, Opening, RPCEDIT, Status, answer_words, draw_key, edit_args, edit_run_keyed,
    read_text, read_words, usual_style,
};
use std::process::ExitCode;
use x_text::{In, Out};

/// Carries out the command line. Where that stops early, it answers the status as an error.
fn run(rt: &HostRuntime) -> Result<Status, Status> {
    let mut err = Out::new(rt.stderr());
    let words = read_words(rt, "rpcedit", &mut err)?;
    let args = match edit_args(rt.alloc(), words.as_slice()) {
        Ok(args) => args,
        Err(error) => {
            let mut out = Out::new(rt.stdout());
            return Err(answer_words(rt.alloc(), &RPCEDIT, &error, &mut out, &mut err));
        }
    };
    let style = usual_style(rt);
    let known = KnownSources::read(rt, "rpcedit", &args.before, style, &mut err)?;
    let how = Opening::of(style, &known, &args.before);
    let bytes = read_text(rt, "rpcedit", args.file, &mut err)?;
    let hash_key = draw_key(rt, "rpcedit", &mut err)?;
    let mut input = In::new(rt.stdin());
    let mut out = Out::new(rt.stdout());
    Ok(edit_run_keyed(
        rt.alloc(),
        hash_key,
        &args,
        &how,
        &bytes,
        &mut input,
        &mut out,
        &mut err,
    ))
}

fn main(rt: HostRuntime) -> ExitCode {
    let (Ok(status) | Err(status)) = run(&rt);
    ExitCode::from(status.code())
}
