//! What the programs tell on standard error.

ghost use Rattle.std.specs.Prelude.{◌≡◌, ◌++◌, codes};
ghost use Rattle.x_args.specs.Telling.{told_of, Complains, IsTold};

use x_text::{Outlet, Pen, Sink};

/// Writes text that says why a run does not go on. Where that fails there is nobody to tell.
pub fn complain<E: Sink>(text: &str, err: &mut E)
    ensures { IsTold (E.state err.old) (E.state err.new) text.now }
{
    let mut pen = Pen::new();
    pen.add(text.as_bytes(), err);
    let _ = pen.finish(err);
}

/// Writes what is wrong with a file, behind the name of the program.
pub fn tell_of_file<E: Sink>(program: &str, file: &str, wrong: &str, err: &mut E)
    ensures { IsTold (E.state err.old) (E.state err.new)
        (program.now ++ codes ": " ++ file.now ++ wrong.now) }
{
    let mut pen = Pen::new();
    pen.add(program.as_bytes(), err);
    pen.add(b": ", err);
    pen.add(file.as_bytes(), err);
    pen.add(wrong.as_bytes(), err);
    let _ = pen.finish(err);
}

/// Writes, after the name of the program, that its output has failed. Of an output whose reader has enough it
/// writes nothing.
pub fn complain_of_output<O: Outlet, E: Sink>(program: &str, out: &O, err: &mut E)
    ensures { Complains (O.is_closed out.now) (E.state err.old) (E.state err.new)
        (told_of program.now (codes "output cannot be written")) }
{
    if !out.is_closed() {
        tell_of_file(program, "output cannot be written", "\n", err);
    }
}
