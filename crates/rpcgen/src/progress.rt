//! The standard error of a check, which shows on a terminal how far that is.

ghost use Rattle.std.specs.Prelude.{◌≡◌};

use rpcx::Screen;
use std::io::{IsTerminal, Stderr};
use std::time::{Duration, Instant};
use x_text::{Broken, Out, Sink};

/// How many milliseconds a check takes before it shows how far it is.
const MOST_SILENCE: u64 = 1_000;

/// How many milliseconds what it shows stays at least.
const LEAST_STAY: u64 = 100;

/// The standard error. On a terminal it shows which of the files is being checked, where the check takes over
/// a second, and takes that away before anything else is written.
#[derive(Drop)]
pub struct Progress<'a> {
    rt: &'a HostRuntime,
    err: Out<Stderr>,
    count: usize,
    begun: usize,
    // From when on a line is shown. Where none is ever shown, there is no time.
    due: Option<Instant>,
    is_shown: bool,
}

impl<'a> Progress<'a> {
    /// The standard error of a check of so many files.
    pub fn new(rt: &'a HostRuntime, count: usize, err: Out<Stderr>) -> Progress<'a> {
        let due = if rt.stderr().is_terminal() {
            time_in(rt, MOST_SILENCE)
        } else {
            None
        };
        Progress {
            rt,
            err,
            count,
            begun: 0,
            due,
            is_shown: false,
        }
    }

    /// Takes away what is shown.
    pub fn erase(&mut self)
        ensures { self.new.err ≡ self.old.err }
    {
        if self.is_shown {
            let _ = eprint!(self.rt; "\r\x1b[K");
            self.is_shown = false;
        }
    }

    /// Whether a line is to be shown now.
    fn is_due(&self) -> bool {
        match (self.due, Instant::now(self.rt)) {
            (Some(due), Ok(now)) => due <= now,
            _ => false,
        }
    }
}

/// The time in so many milliseconds, where there is a clock.
fn time_in(rt: &HostRuntime, millis: u64) -> Option<Instant> {
    Instant::now(rt)
        .ok()?
        .checked_add(Duration::from_millis(millis))
}

impl Sink for Progress<'_> {
    ghost state = { λ p. ⟦<Out<Stderr> as Sink>⟧.state p.err };

    fn put(&mut self, bytes: &[u8]) -> Result<usize, Broken> {
        self.erase();
        self.err.put(bytes)
    }

    fn flush(&mut self) -> Result<(), Broken> {
        self.err.flush()
    }
}

impl Screen for Progress<'_> {
    fn begin_file(&mut self, file: &str) {
        self.begun = self.begun.saturating_add(1);
        if self.is_due() {
            let (begun, count) = (self.begun, self.count);
            let _ = eprint!(self.rt; "\r\x1b[Kchecking {begun} of {count}: {file:.40}");
            self.is_shown = true;
            self.due = time_in(self.rt, LEAST_STAY);
        }
    }
}
