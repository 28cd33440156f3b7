//! The lines that tell clashes.

ghost use Rattle.std.specs.Prelude.{◌≡◌, map};
ghost use Rattle.std.specs.List.{flat_map};
ghost use Rattle.x_streams.specs.Writing.{Adds};
ghost use Rattle.x_warnings.specs.WarningLines.{kind_text, other_place_text, other_text, place_text};
ghost use Rattle.x_warnings.specs.WarningLines.{spot_text, warning_line};
ghost use Rattle.x_warnings.specs.Warnings.{view_warning};

use crate::warning::{OtherMeaning, Warning};
use x_session::Spot;
use x_taken::TakenAs;
use x_text::{Pen, Sink};
use x_value::add_number;

/// What is said of a name that C has already.
pub fn kind_text(kind: TakenAs) -> &'static str
    ensures { result.now ≡ kind_text kind }
{
    match kind {
        TakenAs::Keyword => "is a keyword of C",
        TakenAs::KeywordOfCpp => "is a keyword of C++",
        TakenAs::Macro | TakenAs::Number | TakenAs::CallMacro => "is a macro of C's headers",
        TakenAs::Name | TakenAs::Tag | TakenAs::TaggedName => "is a name of C's headers",
        TakenAs::Parameter => "is a parameter of generated functions",
        TakenAs::Variable => "is a variable of generated functions",
    }
}

/// Adds `LINE:COL` behind the name of a file.
#[tactic(auto, using(x_text::proofs::Adding::five))]
fn add_spot<S: Sink>(file: &str, spot: &Spot, pen: &mut Pen, sink: &mut S)
    ensures { Adds pen.old (S.state sink.old) pen.new (S.state sink.new) (spot_text file.now spot.now) }
{
    pen.add(file.as_bytes(), sink);
    pen.add(b":", sink);
    add_number(spot.line, pen, sink);
    pen.add(b":", sink);
    add_number(spot.column, pen, sink);
}

/// Adds `FILE:LINE:COL`.
fn add_place<S: Sink>(file: &str, spot: Option<Spot>, pen: &mut Pen, sink: &mut S)
    ensures { Adds pen.old (S.state sink.old) pen.new (S.state sink.new) (place_text file.now spot) }
{
    if let Some(spot) = spot {
        add_spot(file, &spot, pen, sink);
    }
}

/// Adds where the other thing of a name is.
#[tactic(auto, using(x_text::proofs::Adding::two))]
fn add_other_place<S: Sink>(file: &str, spot: Option<Spot>, pen: &mut Pen, sink: &mut S)
    ensures { Adds pen.old (S.state sink.old) pen.new (S.state sink.new) (other_place_text file.now spot) }
{
    pen.add(b"has two meanings in C; the other is at ", sink);
    add_place(file, spot, pen, sink);
}

/// Adds what else has a name.
fn add_other<S: Sink>(file: &str, other: OtherMeaning, pen: &mut Pen, sink: &mut S)
    ensures { Adds pen.old (S.state sink.old) pen.new (S.state sink.new) (other_text file.now other) }
{
    match other {
        OtherMeaning::OfC(kind) => pen.add(kind_text(kind).as_bytes(), sink),
        OtherMeaning::OfText(spot) => add_other_place(file, spot, pen, sink),
    }
}

/// Adds `FILE:LINE:COL: warning: 'NAME' ..`.
fn add_warning<S: Sink>(file: &str, warning: &Warning, pen: &mut Pen, sink: &mut S)
    ensures { Adds pen.old (S.state sink.old) pen.new (S.state sink.new)
        (warning_line file.now (view_warning warning.now)) }
{
    add_place(file, warning.spot, pen, sink);
    pen.add(b": warning: '", sink);
    pen.add(&warning.name, sink);
    pen.add(b"' ", sink);
    add_other(file, warning.other, pen, sink);
    pen.add(b"\n", sink);
}

/// Adds a line for each of the names of a file's text that clash.
pub fn add_warnings<S: Sink>(file: &str, warnings: &[Warning], pen: &mut Pen, sink: &mut S)
    ensures { Adds pen.old (S.state sink.old) pen.new (S.state sink.new)
        (flat_map (warning_line file.now) (map view_warning warnings.now)) }
{
    for warning in warnings {
        add_warning(file, warning, pen, sink);
    }
}
