//! The names that a text takes from C, as they are told.

ghost use Rattle.std.specs.List.{flat_map};
ghost use Rattle.x_streams.specs.Writing.{Adds};
ghost use Rattle.x_explain.specs.Explained.{foreign_line};
ghost use Rattle.x_session.specs.Foreign.{view_all, view_foreign};

use crate::lines::{CYAN, add_painted, add_place};
use x_session::ForeignName;
use x_text::{Pen, Sink};

/// Adds a line for each of the names.
pub(crate) fn add_foreign_lines<S: Sink>(
    coloured: bool,
    file: &str,
    names: &[ForeignName],
    pen: &mut Pen,
    sink: &mut S,
)
    ensures { Adds pen.old (S.state sink.old) pen.new (S.state sink.new)
        (flat_map (foreign_line coloured file.now) (view_all names.now)) }
{
    for name in names {
        add_foreign_line(coloured, file, name, pen, sink);
    }
}

/// Adds `FILE:LINE:COL: note: 'NAME' is taken from C`.
#[tactic(auto, using(x_text::proofs::Adding::six))]
fn add_foreign_line<S: Sink>(
    coloured: bool,
    file: &str,
    name: &ForeignName,
    pen: &mut Pen,
    sink: &mut S,
)
    ensures { Adds pen.old (S.state sink.old) pen.new (S.state sink.new)
        (foreign_line coloured file.now (view_foreign name.now)) }
{
    add_place(file, name.spot.line, name.spot.column, pen, sink);
    pen.add(b": ", sink);
    add_painted(coloured, CYAN, b"note:", pen, sink);
    pen.add(b" '", sink);
    pen.add(name.name, sink);
    pen.add(b"' is taken from C\n", sink);
}
