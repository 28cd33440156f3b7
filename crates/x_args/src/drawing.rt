//! The key by which a program's tables hash.

ghost use Rattle.std.specs.Prelude.{◌≡◌, codes, OnOk, OnErr, IfErr};
ghost use Rattle.x_args.specs.Telling.{told_of, IsTold};

use crate::complaint::tell_of_file;
use crate::status::Status;
use x_hash::HashKey;
use x_text::Sink;

/// A key of random bytes of the system. Where there are none to be had it reports that, after the name of
/// the program, and answers `Failed`.
pub fn draw_key<E: Sink>(rt: &HostRuntime, program: &str, err: &mut E) -> Result<HashKey, Status>
    ensures failed { IfErr result (λ status. status ≡ Status.Failed) }
    ensures told { OnErr result (IsTold (E.state err.old) (E.state err.new)
        (told_of program.now (codes "random bytes cannot be read"))) }
    ensures quiet { OnOk result (err.new ≡ err.old) }
{
    match HashKey::drawn(rt) {
        Ok(hash_key) => Ok(hash_key),
        Err(_) => {
            tell_of_file(program, "random bytes cannot be read", "\n", err);
            Err(Status::Failed)
        }
    }
}
