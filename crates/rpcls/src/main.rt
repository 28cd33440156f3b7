//! `rpcls`: serves an editor that has `.x` files open.
#![tactic(auto)]

use rpcx::{KnownSources, usual_style};
use std::process::ExitCode;
use x_args::{RPCLS, Status, answer_words, draw_key, read_words, serve_args};
use x_documents::Setting;
use x_lsp::serve_run;
use x_prelude::FromC;
use x_text::{In, Out};

/// How many faults of a document are published at most, unless the editor says another number.
const MOST_PUBLISHED: usize = 1_000;

/// Carries out the command line. Where that stops early, it answers the status as an error.
fn run(rt: &HostRuntime) -> Result<Status, Status> {
    let mut err = Out::new(rt.stderr());
    let words = read_words(rt, "rpcls", &mut err)?;
    let args = match serve_args(rt.alloc(), words.as_slice()) {
        Ok(args) => args,
        Err(error) => {
            let mut out = Out::new(rt.stdout());
            return Err(answer_words(rt.alloc(), &RPCLS, &error, &mut out, &mut err));
        }
    };
    let known = KnownSources::read(rt, "rpcls", &args.before, usual_style(rt), &mut err)?;
    let setting = Setting {
        files: known.text(),
        from_c: FromC {
            types: args.before.c_types,
            foreign: args.before.foreign,
        },
        blanks: !args.faults_directives,
        warns: true,
        most: MOST_PUBLISHED,
    };
    let hash_key = draw_key(rt, "rpcls", &mut err)?;
    let mut input = In::new(rt.stdin());
    let mut out = Out::new(rt.stdout());
    Ok(serve_run(
        rt.alloc(),
        hash_key,
        setting,
        &mut input,
        &mut out,
        &mut err,
    ))
}

fn main(rt: HostRuntime) -> ExitCode {
    let (Ok(status) | Err(status)) = run(&rt);
    ExitCode::from(status.code())
}
