//! Records of a stream of bytes (RFC 5531, section 11): a record comes as fragments, each behind a header.
ghost use Rattle.std.specs.Prelude.{◌≡◌, ◌<◌, ◌≤◌, ◌^◌, ◌++◌, ℕ, List, All, length, IfOk, MatchResult};
ghost use Rattle.std.specs.Prelude.{MatchOption, Some};
ghost use Rattle.std.specs.Borrow.{sem};
ghost use Rattle.std.specs.Io.BufRead.{Rests};
ghost use Rattle.x_wire.specs.Records.{Left, left, nothing_left, records};
ghost use Rattle.x_wire.specs.Fragments.{Frames};
ghost use Rattle.x_wire.specs.RecordFaults.{end_fault, record_text};

mod framer;

pub(crate) use framer::Framer;
use std::alloc::Global;
use std::fmt;
use std::marker::Model;
use thiserror::Error;

/// The most bytes of a record. One of so many is taken.
pub const MAX_RECORD: usize = 1_048_576;

/// Why a stream is refused. The number of each is its code.
#[derive(Clone, Copy, Debug, PartialEq, Eq)]
pub enum RecordCode {
    /// Memory ran out.
    NoMemory = 58,
    /// A record would be longer than [`MAX_RECORD`] bytes.
    RecordTooLong = 60,
    /// The stream ends inside a header or a record.
    Truncated = 61,
}

impl RecordCode {
    /// The number and the name, as `60 RecordTooLong`.
    pub fn text(self) -> &'static str
        ensures { result.now ≡ record_text self }
    {
        match self {
            RecordCode::NoMemory => "58 NoMemory",
            RecordCode::RecordTooLong => "60 RecordTooLong",
            RecordCode::Truncated => "61 Truncated",
        }
    }
}

impl fmt::Display for RecordCode {
    ghost output = { λ code. Some (record_text code) };

    fn fmt<W: fmt::Write>(&self, f: &mut fmt::Formatter<W>) -> fmt::Result {
        f.write_str(self.text())
    }
}

/// Where a stream is refused, and why.
#[derive(Clone, Copy, Debug, PartialEq, Eq, Error)]
#[error("{code} at {at}")]
pub struct RecordFault {
    /// The place, in bytes from the first of the stream: of the header whose length takes its record over the
    /// limit, or of the stream's end; 0 where memory ran out.
    pub at: u64,
    /// The reason.
    pub code: RecordCode,
}

/// What [`Records::feed`] took of a piece.
#[derive(Clone, Copy, Debug)]
pub struct Fed<'a> {
    /// How many bytes of the piece were taken, from its first on.
    pub used: usize,
    /// The record that they complete, if they complete one: the joined data of its fragments.
    pub whole: Option<&'a [u8]>,
}

/// The records of a stream that comes in pieces, however it is cut (RFC 5531, section 11). It is seen as what
/// the bytes taken so far leave open: how many they are, and where they stand.
#[derive(Drop)]
pub struct Records {
    framer: Framer,
}

impl Model for Records {
    ghost use Rattle.x_wire.specs.Records.{Left};
    ghost use Rattle.x_wire.specs.Framers.{left_by, IsOpen};

    ghost Value = { Left };

    ghost view = { λ records. left_by records.framer };

    ghost invariant = { λ records. IsOpen records.framer.phase };
}

impl Records {
    ghost use Rattle.x_wire.specs.contracts.records.Records.{the_row};
    ghost use Rattle.x_wire.specs.Framing.{HasFed, StaysRefused};

    /// Records of a stream of which no byte came. It takes no memory.
    pub fn new(alloc: Global) -> Records
        ensures { result ≡ nothing_left }
    {
        Records {
            framer: Framer::new(alloc),
        }
    }

    /// Takes bytes up to the end of the first record that they complete, and all where they complete none.
    /// Memory is asked for by the bytes that came, never by a header's length alone.
    ///
    /// # Errors
    /// [`RecordCode::RecordTooLong`] at the first header whose length takes its record over the limit: the
    /// bytes up to its end are taken. From then on each call answers this fault again and takes no byte.
    /// [`RecordCode::NoMemory`]: all is as before the call.
    pub fn feed(&mut self, piece: &[u8]) -> Result<Fed<'_>, RecordFault>
        ensures within { IfOk result (λ fed. fed.used ≤ length piece.now) }
        ensures some { IfOk result (λ fed. 0 < length piece.now → 0 < fed.used) }
        ensures refused { StaysRefused self.old result }
        ensures* fed { sem 𝓛 (Rests the_row self.entry (HasFed self.old piece.now result)) }
    {
        let (used, is_whole) = self.framer.feed(piece)?;
        if is_whole {
            let whole = Some(self.framer.joined());
            return Ok(Fed { used, whole });
        }
        Ok(Fed { used, whole: None })
    }

    /// Tells how a stream ends that ends here. It takes no memory.
    ///
    /// # Errors
    /// [`RecordCode::Truncated`] at the stream's length, where a header or a record is open; behind
    /// [`RecordCode::RecordTooLong`] that fault again.
    pub fn finish(&self) -> Result<(), RecordFault>
        ensures { MatchResult result
            (λ _. end_fault self.now ≡ None) (λ fault. end_fault self.now ≡ Some fault) }
    {
        match self.framer.end_fault() {
            Some(fault) => Err(fault),
            None => Ok(()),
        }
    }
}

/// Each stream of bytes is fragments, in one way: so its records and what it leaves are those that its
/// fragments make.
pub fn records_law()
    ensures some { (stream : List ℕ) → All (λ b. b < 256) stream → length stream < 2 ^ 63 →
        Frames 0 None stream (records stream) (left stream) }
    ensures one { (stream : List ℕ) (rs : List (List ℕ)) (l : Left) → length stream < 2 ^ 63 →
        Frames 0 None stream rs l → (rs ≡ records stream) × (l ≡ left stream) }
{}
