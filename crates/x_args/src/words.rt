//! The words that a program is called with.

ghost use Rattle.std.specs.Prelude.{◌≡◌, ◌⊎◌, codes, OnOk, OnErr, IfErr};
ghost use Rattle.x_args.specs.Telling.{told_of, IsTold};

use crate::complaint::tell_of_file;
use crate::status::Status;
use std::env;
use std::io::ErrorKind;
use x_text::Sink;

/// The words of the command line. Where there are none to be had it tells why, behind the name of the
/// program, and answers `Failed`.
pub fn read_words<E: Sink>(
    rt: &HostRuntime,
    program: &str,
    err: &mut E,
) -> Result<Vec<String>, Status>
    ensures failed { IfErr result (λ status. status ≡ Status.Failed) }
    ensures told { OnErr result
        (IsTold (E.state err.old) (E.state err.new) (told_of program.now (codes "out of memory"))
        ⊎ IsTold (E.state err.old) (E.state err.new)
        (told_of program.now (codes "a word of the command line is not UTF-8"))) }
    ensures quiet { OnOk result (err.new ≡ err.old) }
{
    match env::args(rt).map(|words| words.collect(rt.alloc())) {
        Ok(Ok(words)) => Ok(words),
        Err(error) if error.kind() == ErrorKind::InvalidData => {
            tell_of_file(
                program,
                "a word of the command line is not UTF-8",
                "\n",
                err,
            );
            Err(Status::Failed)
        }
        _ => {
            tell_of_file(program, "out of memory", "\n", err);
            Err(Status::Failed)
        }
    }
}
