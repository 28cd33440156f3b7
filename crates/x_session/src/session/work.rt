//! The work of an edit.
ghost use Rattle.std.specs.Prelude.{◌≡◌};
ghost use Rattle.x_streams.specs.Counters.{raised};

use x_text::Meter;

/// What work an edit took.
#[derive(Clone, Copy, Debug, Default, PartialEq, Eq)]
pub struct Work {
    /// How many tokens were lexed.
    pub lexed: u64,
    /// How many items were parsed.
    pub parsed: u64,
    /// How many items were checked.
    pub checked: u64,
    /// How many kept entries were moved.
    pub moved: u64,
}

impl Work {
    /// What a meter counted.
    pub(crate) fn of(meter: &Meter) -> Work
        ensures { result ≡ record {
          lexed = meter.now.lexed;
          parsed = meter.now.parsed;
          checked = meter.now.checked;
          moved = meter.now.moved;
        } }
    {
        Work {
            lexed: meter.lexed(),
            parsed: meter.parsed(),
            checked: meter.checked(),
            moved: meter.moved(),
        }
    }

    /// This work and other work. Each count stays at the greatest number.
    pub(crate) fn with(self, other: &Work) -> Work
        ensures { result ≡ record {
          lexed = raised self.lexed other.now.lexed;
          parsed = raised self.parsed other.now.parsed;
          checked = raised self.checked other.now.checked;
          moved = raised self.moved other.now.moved;
        } }
    {
        Work {
            lexed: self.lexed.saturating_add(other.lexed),
            parsed: self.parsed.saturating_add(other.parsed),
            checked: self.checked.saturating_add(other.checked),
            moved: self.moved.saturating_add(other.moved),
        }
    }
}
