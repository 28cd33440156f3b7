//! How much work was done.
ghost use Rattle.std.specs.Prelude.{◌≡◌, ◌+◌};
ghost use Rattle.x_streams.specs.Counters.{raised};

use std::marker::Model;

/// Counts the work that was done on a text. Each counter stays at the greatest number of its type, and no
/// call lowers it.
///
/// A meter is made by [`Meter::new`] alone: it is neither `Clone`, `Copy` nor `Default`, and its fields are
/// private.
#[derive(Debug, Drop)]
pub struct Meter {
    lexed: u64,
    parsed: u64,
    checked: u64,
    moved: u64,
}

impl Model for Meter {
    ghost use Rattle.x_text.specs.Counts.{Counts};

    ghost Value = { Counts };

    ghost view = { λ m. record { lexed = m.lexed; parsed = m.parsed; checked = m.checked; moved = m.moved } };
}

impl Meter {
    /// A meter that has counted nothing.
    pub fn new() -> Meter
        ensures { result ≡ record { lexed = 0; parsed = 0; checked = 0; moved = 0 } }
    {
        Meter {
            lexed: 0,
            parsed: 0,
            checked: 0,
            moved: 0,
        }
    }

    /// How many tokens were lexed.
    pub fn lexed(&self) -> u64
        ensures { result ≡ self.now.lexed }
    {
        self.lexed
    }

    /// How many items were parsed.
    pub fn parsed(&self) -> u64
        ensures { result ≡ self.now.parsed }
    {
        self.parsed
    }

    /// How many items were checked.
    pub fn checked(&self) -> u64
        ensures { result ≡ self.now.checked }
    {
        self.checked
    }

    /// How many kept entries were moved.
    pub fn moved(&self) -> u64
        ensures { result ≡ self.now.moved }
    {
        self.moved
    }

    /// Counts one more token.
    pub fn tick_lexed(&mut self)
        ensures { self.new ≡ record self.old { lexed = raised self.old.lexed 1 } }
    {
        self.lexed = self.lexed.saturating_add(1);
    }

    /// Counts one more parsed item.
    pub fn tick_parsed(&mut self)
        ensures { self.new ≡ record self.old { parsed = raised self.old.parsed 1 } }
    {
        self.parsed = self.parsed.saturating_add(1);
    }

    /// Counts one more checked item.
    pub fn tick_checked(&mut self)
        ensures { self.new ≡ record self.old { checked = raised self.old.checked 1 } }
    {
        self.checked = self.checked.saturating_add(1);
    }

    /// Counts `count` more moved entries.
    pub fn add_moved(&mut self, count: u64)
        ensures { self.new ≡ record self.old { moved = raised self.old.moved count } }
    {
        self.moved = self.moved.saturating_add(count);
    }
}
