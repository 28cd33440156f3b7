//! A buffer before a sink.
ghost use Rattle.std.specs.Prelude.{◌≡◌, ◌≤◌, [], false, ℕ, List, IsTrue, OnOk, IfErr, take, length};
ghost use Rattle.std.specs.Io.KnownBytes.{Appends};
ghost use Rattle.x_streams.specs.Counters.{raised};
ghost use Rattle.x_streams.specs.Streams.{Stream};
ghost use Rattle.x_streams.specs.Writing.{Writes, Adds, IsWritten};

use crate::Sink;
use arrayvec::ArrayVec;
use std::marker::Model;
use thiserror::Error;

/// The sink failed when it had taken the first `written` bytes of the text, and no others.
#[derive(Clone, Copy, Debug, PartialEq, Eq, Error)]
#[error("the write failed after {written} bytes")]
pub struct WriteFault {
    /// How many bytes the sink took. It stays at the greatest number.
    pub written: u64,
}

/// How many bytes a pen holds back at the most.
const HELD: usize = 8192;

/// Writes a text to a sink in parts: it holds back a few bytes, so that the sink is asked seldom, and takes
/// no memory.
///
/// Once the sink has failed nothing more goes to it, and [`Pen::finish`] tells.
#[derive(Drop)]
pub struct Pen {
    pending: ArrayVec<u8, HELD>,
    written: u64,
    stopped: bool,
}

impl Model for Pen {
    ghost use Rattle.x_streams.specs.Writing.{Inked};

    ghost Value = { Inked };

    ghost view = { λ p. record { pending = p.pending.items; written = p.written; stopped = p.stopped } };
}

impl Pen {
    /// A pen that was given nothing.
    pub fn new() -> Pen
        ensures { result ≡ record { pending = []; written = 0; stopped = false } }
    {
        Pen {
            pending: ArrayVec::new(),
            written: 0,
            stopped: false,
        }
    }

    /// Writes these bytes, some of them perhaps later.
    #[inline(always)]
    pub fn add<S: Sink>(&mut self, bytes: &[u8], sink: &mut S)
        ensures { Adds self.old (S.state sink.old) self.new (S.state sink.new) bytes.now }
    {
        if !self.holds(bytes) {
            self.pass_on_and_add(bytes, sink);
        }
    }

    /// Holds the bytes back if there is room for them, or if nothing more goes to the sink, and answers
    /// whether it does.
    #[inline(always)]
    fn holds(&mut self, bytes: &[u8]) -> bool
        ensures holds { IsTrue result → (now : Stream) → Adds self.old now self.new now bytes.now }
        ensures same { result ≡ false → self.new ≡ self.old }
        ensures goes_on { result ≡ false → self.new.stopped ≡ false }
    {
        self.stopped || self.pending.try_extend_from_slice(bytes).is_ok()
    }

    /// Writes what is held back, and then these bytes, some of them perhaps later.
    #[inline(never)]
    fn pass_on_and_add<S: Sink>(&mut self, bytes: &[u8], sink: &mut S)
        ensures { Adds self.old (S.state sink.old) self.new (S.state sink.new) bytes.now }
    {
        self.pass_on(sink);
        if !self.holds(bytes) {
            self.write_through(bytes, sink);
        }
    }

    /// Writes what is held back.
    fn pass_on<S: Sink>(&mut self, sink: &mut S)
        ensures adds { Adds self.old (S.state sink.old) self.new (S.state sink.new) [] }
        ensures empty { self.new.stopped ≡ false → self.new.pending ≡ [] }
    {
        if self.stopped {
            return;
        }
        match put_all(&self.pending, sink) {
            Ok(()) => {
                self.written = raised(self.written, self.pending.len());
                self.pending.clear();
            }
            Err(taken) => {
                self.written = raised(self.written, taken);
                self.stopped = true;
            }
        }
    }

    /// Writes bytes that there is no room for, where nothing is held back.
    fn write_through<S: Sink>(&mut self, bytes: &[u8], sink: &mut S)
        requires empty { self.old.pending ≡ [] }
        requires goes_on { self.old.stopped ≡ false }
        ensures { Adds self.old (S.state sink.old) self.new (S.state sink.new) bytes.now }
    {
        match put_all(bytes, sink) {
            Ok(()) => self.written = raised(self.written, bytes.len()),
            Err(taken) => {
                self.written = raised(self.written, taken);
                self.stopped = true;
            }
        }
    }

    /// Writes what was held back, and has the sink pass it on.
    pub fn flush<S: Sink>(&mut self, sink: &mut S)
        ensures adds { Adds self.old (S.state sink.old) self.new (S.state sink.new) [] }
        ensures empty { self.new.stopped ≡ false → self.new.pending ≡ [] }
        ensures working { self.new.stopped ≡ false → (S.state sink.new).failed ≡ false }
    {
        self.pass_on(sink);
        if !self.stopped {
            self.stopped = sink.flush().is_err();
        }
    }

    /// Whether the sink has failed, so that nothing more goes to it.
    pub fn has_stopped(&self) -> bool
        ensures { result ≡ self.now.stopped }
    {
        self.stopped
    }

    /// How many bytes the sink took. It stays at the greatest number.
    pub fn written(&self) -> u64
        ensures { result ≡ self.now.written }
    {
        self.written
    }

    /// Writes what was held back, and has the sink pass it on.
    pub fn finish<S: Sink>(self, sink: &mut S) -> Result<(), WriteFault>
        ensures written { (start : Stream) (text : List ℕ) → Writes start text self (S.state sink.old)
            → IsWritten result start (S.state sink.new) text }
        ensures working { OnOk result ((S.state sink.new).failed ≡ false) }
    {
        let mut pen = self;
        pen.flush(sink);
        if pen.stopped {
            Err(WriteFault {
                written: pen.written,
            })
        } else {
            Ok(())
        }
    }
}

/// The count with so many more. It stays at the greatest number.
fn raised(count: u64, more: usize) -> u64
    ensures sum { result ≡ raised count more }
    ensures no_fewer { count ≤ result }
{
    count.saturating_add(more as u64)
}

/// Puts all the bytes, or answers how many the sink took before it failed.
fn put_all<S: Sink>(bytes: &[u8], sink: &mut S) -> Result<(), usize>
    ensures all { OnOk result (Appends (S.state sink.old).bytes (S.state sink.new).bytes bytes.now) }
    ensures front { IfErr result
        (λ taken. Appends (S.state sink.old).bytes (S.state sink.new).bytes (take taken bytes.now)) }
    ensures within { IfErr result (λ taken. taken ≤ length bytes.now) }
    ensures failed { IfErr result (λ _. IsTrue (S.state sink.new).failed) }
{
    let mut done = 0;
    while done < bytes.len() {
        match sink.put(&bytes[done..]) {
            Ok(count) => done += count,
            Err(_) => return Err(done),
        }
    }
    Ok(())
}
