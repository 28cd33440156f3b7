//! Why `rpcdump` does not show a file to its end, and how that is told.

ghost use Rattle.std.specs.Prelude.{◌++◌, codes};
ghost use Rattle.rpcx.specs.Dumping.{type_asked, TellsHalt};
ghost use Rattle.x_args.specs.Telling.{IsTold};

use x_args::{DumpArgs, complain_of_output, tell_of_file};
use x_opening::tell_stop;
use x_text::{EngineFault, Outlet, Pen, Sink};

/// Why the bytes of a file are not shown to their end.
#[derive(Clone, Copy)]
pub enum Halt {
    /// The schema has no type of the name.
    NoType,
    /// The file could not be read, so nothing of it is shown.
    Unread,
    /// The file is too large to be one message or one value.
    TooLarge,
    /// There is no memory for the bytes of the file.
    NoRoom,
    /// What is shown of the file ended early.
    Ended(EngineFault),
    /// All was shown, but the output has not passed it on.
    Unwritten,
}

/// Writes why a file is not shown to its end. Where the output's reader has enough it writes nothing.
pub fn tell_halt<O: Outlet, E: Sink>(halt: Halt, args: &DumpArgs, out: &O, err: &mut E)
    ensures { TellsHalt (O.is_closed out.now) (type_asked args.now) args.now.file.now halt
        (E.state err.old) (E.state err.new) }
{
    match halt {
        Halt::NoType => tell_no_type(args.type_name.unwrap_or(""), err),
        Halt::Unread => tell_of_file("rpcdump", args.file, ": cannot be read\n", err),
        Halt::TooLarge => tell_of_file("rpcdump", args.file, ": 2 TooLarge\n", err),
        Halt::NoRoom => tell_of_file("rpcdump", "out of memory", "\n", err),
        Halt::Ended(fault) => tell_stop("rpcdump", args.file, fault, out, err),
        Halt::Unwritten => complain_of_output("rpcdump", out, err),
    }
}

/// Writes that the schema has no type of this name.
fn tell_no_type<E: Sink>(name: &str, err: &mut E)
    ensures { IsTold (E.state err.old) (E.state err.new)
        (codes "rpcdump: no type " ++ name.now ++ codes "\n") }
{
    let mut pen = Pen::new();
    pen.add(b"rpcdump: no type ", err);
    pen.add(name.as_bytes(), err);
    pen.add(b"\n", err);
    let _ = pen.finish(err);
}
