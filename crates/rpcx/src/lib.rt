//! What the programs do: their runs, and what they tell. The files that they open (`x_opening`), the runs of
//! `rpcgen` (`x_generating`) and command lines (`x_args`) are offered here too.
#![tactic(auto)]

mod rpcdump;
mod rpcedit;

pub use rpcdump::dump_run;
pub use rpcedit::{edit_run, edit_run_keyed};
pub use x_args::{
    BeforeArgs, CheckArgs, DumpArgs, EditArgs, GenArgs, Manual, Mode, RPCDUMP, RPCEDIT, RPCGEN,
    Status, VERSION, answer_words, asks_check, check_args, complain_of_output, draw_key, dump_args,
    dump_mode, edit_args, gen_args, gen_mode, read_words, request_first, tell_of_file,
};
pub use x_explain::mark_under_word;
pub use x_generating::{Output, OutputFault, Screen, check_run, gen_open, gen_run, gen_write};
pub use x_opening::{FaultStyle, KnownSources, Opening, explained_style, read_text, usual_style};
