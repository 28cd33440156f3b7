//! What is told of a fault in a line.

ghost use Rattle.x_streams.specs.Writing.{Adds};
ghost use Rattle.x_session.specs.FaultLines.{fault_place};

use x_compile::Fault;
use x_text::{Pen, Sink};
use x_value::add_number;

/// Adds the place of a fault, `LINE:COL`.
pub fn add_place<S: Sink>(fault: &Fault, pen: &mut Pen, sink: &mut S)
    ensures { Adds pen.old (S.state sink.old) pen.new (S.state sink.new) (fault_place fault.now) }
{
    add_number(fault.line as usize, pen, sink);
    pen.add(b":", sink);
    add_number(fault.col as usize, pen, sink);
}
