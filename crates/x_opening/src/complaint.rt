//! Why a run over a file does not go on, as a program tells it.

ghost use Rattle.x_opening.specs.Opened.{unopened_told, TellsStop};
ghost use Rattle.x_args.specs.Telling.{IsTold};

use x_args::{complain_of_output, tell_of_file};
use x_text::{EngineFault, Outlet, Sink, TextFault};

/// Writes why a file's text is not opened, behind the name of the program.
pub fn tell_unopened<E: Sink>(program: &str, file: &str, fault: TextFault, err: &mut E)
    ensures { IsTold (E.state err.old) (E.state err.new) (unopened_told program.now file.now fault) }
{
    match fault {
        TextFault::TooLarge => tell_of_file(program, file, ": 2 TooLarge\n", err),
        TextFault::NoMemory => tell_of_file(program, "out of memory", "\n", err),
        // No text is refused for a range.
        TextFault::BadRange => tell_of_file(program, "out of memory", "\n", err),
    }
}

/// Writes why a run stopped that reads a file, behind the name of the program. Where the output's reader has
/// enough it writes nothing.
pub fn tell_stop<O: Outlet, E: Sink>(
    program: &str,
    file: &str,
    fault: EngineFault,
    out: &O,
    err: &mut E,
)
    ensures { TellsStop (O.is_closed out.now) program.now file.now fault
        (E.state err.old) (E.state err.new) }
{
    match fault {
        EngineFault::Read { .. } => tell_of_file(program, file, ": cannot be read\n", err),
        EngineFault::Write { .. } => complain_of_output(program, out, err),
        EngineFault::NoMemory { .. } => tell_of_file(program, "out of memory", "\n", err),
    }
}
