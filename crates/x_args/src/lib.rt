//! The command lines of the programs: what they ask for, and what is answered to those that no run comes of.
#![tactic(auto)]

mod answering;
mod arguments;
mod bases;
mod before_args;
mod checking_args;
mod complaint;
mod drawing;
mod dumping_args;
mod editing_args;
mod generating_args;
mod laws;
mod manual;
mod serving_args;
mod status;
mod words;

pub use answering::answer_words;
pub use bases::base_name;
pub use before_args::BeforeArgs;
pub use checking_args::{CheckArgs, asks_check, check_args};
pub use complaint::{complain_of_output, tell_of_file};
pub use drawing::draw_key;
pub use dumping_args::{DumpArgs, Mode, dump_args, dump_mode};
pub use editing_args::{EditArgs, edit_args};
pub use generating_args::{GenArgs, gen_args, gen_mode};
pub use laws::request_first;
pub use manual::{Manual, RPCDUMP, RPCEDIT, RPCGEN, RPCLS, VERSION};
pub use serving_args::{ServeArgs, serve_args};
pub use status::Status;
pub use words::read_words;
