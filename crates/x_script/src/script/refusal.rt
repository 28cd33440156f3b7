//! Why a line of a script is refused.

ghost use Rattle.std.specs.Prelude.{◌≡◌};
ghost use Rattle.x_streams.specs.Writing.{Adds};
ghost use Rattle.x_script.specs.Refusals.{refusal_line, refusal_text};

use x_text::{Pen, Sink};

/// Why a line of a script is refused. The number of each is its code.
#[derive(Clone, Copy, Debug, PartialEq, Eq)]
pub(crate) enum LineRefusal {
    /// The range of the edit does not lie within the text.
    BadRange = 1,
    /// The text would be longer than a text may be.
    TooLarge = 2,
    /// The text has a fault, and so no types.
    Faulty = 40,
    /// No type of the text has the name.
    NoType = 42,
    /// The line is no command.
    BadLine = 43,
    /// The line is longer than a line may be.
    LongLine = 44,
}

impl LineRefusal {
    /// The number and the name of the reason, as they are printed.
    pub(crate) fn text(self) -> &'static str
        ensures { result.now ≡ refusal_text self }
    {
        match self {
            LineRefusal::BadRange => "1 BadRange",
            LineRefusal::TooLarge => "2 TooLarge",
            LineRefusal::Faulty => "40 Faulty",
            LineRefusal::NoType => "42 NoType",
            LineRefusal::BadLine => "43 BadLine",
            LineRefusal::LongLine => "44 LongLine",
        }
    }

    /// Adds the answer `refused CODE NAME` to what is written.
    #[tactic(auto, using(x_text::proofs::Adding::three))]
    pub(crate) fn add_line<S: Sink>(self, pen: &mut Pen, sink: &mut S)
        ensures { Adds pen.old (S.state sink.old) pen.new (S.state sink.new) (refusal_line self) }
    {
        pen.add(b"refused ", sink);
        pen.add(self.text().as_bytes(), sink);
        pen.add(b"\n", sink);
    }
}
