//! The text of a file, which a program reads before its run.

ghost use Rattle.std.specs.Prelude.{◌≡◌, ◌⊎◌, ◌++◌, codes, OnOk, OnErr, IfErr};
ghost use Rattle.x_args.specs.Telling.{told_of, IsTold};

use std::io::{ErrorKind, Read};
use std::{fs, io};
use x_args::{Status, tell_of_file};
use x_text::{MAX_TEXT, Sink};

/// The bytes of a file, but no more of them than show that it is too large.
fn bytes_of_file(rt: &HostRuntime, file: &str) -> io::Result<Vec<u8>> {
    let mut bytes = Vec::new(rt.alloc());
    fs::open(rt, file)?
        .take(MAX_TEXT as u64 + 1)
        .read_to_end(&mut bytes)?;
    Ok(bytes)
}

/// The text of a file; of one that is too large no more than shows it. Where the file cannot be read it tells
/// so, behind the name of the program, and answers `Failed`.
pub fn read_text<E: Sink>(
    rt: &HostRuntime,
    program: &str,
    file: &str,
    err: &mut E,
) -> Result<Vec<u8>, Status>
    ensures failed { IfErr result (λ status. status ≡ Status.Failed) }
    ensures told { OnErr result
        (IsTold (E.state err.old) (E.state err.new) (told_of program.now (codes "out of memory"))
        ⊎ IsTold (E.state err.old) (E.state err.new)
        (program.now ++ codes ": " ++ file.now ++ codes ": cannot be read\n")) }
    ensures quiet { OnOk result (err.new ≡ err.old) }
{
    match bytes_of_file(rt, file) {
        Ok(bytes) => Ok(bytes),
        Err(error) if error.kind() == ErrorKind::OutOfMemory => {
            tell_of_file(program, "out of memory", "\n", err);
            Err(Status::Failed)
        }
        Err(_) => {
            tell_of_file(program, file, ": cannot be read\n", err);
            Err(Status::Failed)
        }
    }
}
