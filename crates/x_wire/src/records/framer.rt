//! Bytes of a stream, taken header by header and fragment by fragment.
ghost use Rattle.std.specs.Prelude.{◌≡◌, ◌<◌, ◌≤◌, ◌∷◌, [], length, take, false, IfOk, IfErr, MatchOption, ⊤};
ghost use Rattle.x_wire.specs.Records.{nothing_left, in_fragment, behind_header};
ghost use Rattle.x_wire.specs.RecordFaults.{end_fault, fault_at};

use crate::records::{MAX_RECORD, RecordCode, RecordFault};
use byteorder::{BigEndian, ByteOrder};
use std::alloc::{AllocError, Global};

/// The bytes of a header.
const HEADER_LEN: usize = 4;

/// The bit of a header that says that its fragment is the last of its record; the bits below it are the
/// fragment's length.
const LAST_BIT: u32 = 0x8000_0000;

/// Memory ran out.
const OUT_OF_MEMORY: RecordFault = RecordFault {
    at: 0,
    code: RecordCode::NoMemory,
};

/// The header at this place takes its record over the limit.
fn too_long(at: u64) -> RecordFault
    ensures { result ≡ record { at = at; code = RecordCode.RecordTooLong } }
{
    RecordFault {
        at,
        code: RecordCode::RecordTooLong,
    }
}

/// Where a stream stands.
#[derive(Clone, Copy)]
pub(crate) enum Phase {
    /// Inside a header, of which so many bytes came; the record is open, if one is, from its first header on.
    InHeader {
        bytes: [u8; HEADER_LEN],
        count: usize,
        is_open: bool,
    },
    /// Inside a fragment that lacks so many bytes, at least one.
    InData {
        lacks: u32,
        last: bool,
    },
    /// Behind the header at this place, whose length takes its record over the limit.
    TooLong {
        at: u64,
    },
}

/// Takes the bytes of a stream. It keeps the joined data of the open record, or where none is open that of
/// the last whole one.
#[derive(Drop)]
pub(crate) struct Framer {
    taken: u64,
    phase: Phase,
    joined: Vec<u8>,
}

impl Framer {
    ghost use Rattle.x_wire.specs.Framers.{left_by, IsOpen, IsReady, MadeMove, TookBytes, FedBytes};
    ghost use Rattle.x_wire.specs.Framers.{RefusedBytes, HasGrown};

    /// No byte came. It takes no memory.
    pub(crate) fn new(alloc: Global) -> Framer
        ensures left { left_by result ≡ nothing_left }
        ensures is_open { IsOpen result.phase }
    {
        Framer {
            taken: 0,
            phase: Phase::InHeader {
                bytes: [0; HEADER_LEN],
                count: 0,
                is_open: false,
            },
            joined: Vec::new(alloc),
        }
    }

    /// The joined data of the open record, or of the last whole one.
    pub(crate) fn joined(&self) -> &[u8]
        ensures { result.now ≡ self.now.joined.items }
    {
        &self.joined
    }

    /// Stands in a fragment that lacks so many bytes, or behind it. Answers whether a record is whole.
    fn enter_fragment(&mut self, lacks: u32, last: bool) -> bool
        ensures made { MadeMove
            (in_fragment self.old.taken lacks last self.old.joined.items) self.new result }
        ensures same { self.new.joined.items ≡ self.old.joined.items }
    {
        if lacks > 0 {
            self.phase = Phase::InData { lacks, last };
            return false;
        }
        self.phase = Phase::InHeader {
            bytes: [0; HEADER_LEN],
            count: 0,
            is_open: !last,
        };
        last
    }

    /// Stands behind a header with this number. Answers whether a record is whole.
    fn pass_header(&mut self, number: u32) -> bool
        ensures made { MadeMove (behind_header self.old.taken number self.old.joined.items) self.new result }
        ensures same { self.new.joined.items ≡ self.old.joined.items }
    {
        let size = number % LAST_BIT;
        if self.joined.len() + size as usize > MAX_RECORD {
            let at = self.taken.saturating_sub(HEADER_LEN as u64);
            self.phase = Phase::TooLong { at };
            return false;
        }
        self.enter_fragment(size, number >= LAST_BIT)
    }

    /// Takes a header's byte, behind so many. Answers whether a record is whole.
    fn take_header_byte(
        &mut self,
        bytes: [u8; HEADER_LEN],
        count: usize,
        is_open: bool,
        byte: u8,
    ) -> bool
        requires phase { self.old.phase ≡ Phase.InHeader bytes count is_open }
        requires ready { IsReady self.old }
        ensures took { TookBytes self.old (byte ∷ []) self.new result }
        ensures same { self.new.joined.items ≡ self.old.joined.items }
    {
        let mut bytes = bytes;
        bytes[count] = byte;
        self.taken = self.taken.saturating_add(1);
        if count + 1 == HEADER_LEN {
            return self.pass_header(BigEndian::read_u32(&bytes));
        }
        self.phase = Phase::InHeader {
            bytes,
            count: count + 1,
            is_open,
        };
        false
    }

    /// Takes all these bytes of the open fragment's data. Answers whether a record is whole.
    fn take_data(&mut self, lacks: u32, last: bool, bytes: &[u8]) -> Result<bool, AllocError>
        requires phase { self.old.phase ≡ Phase.InData lacks last }
        requires some { 0 < length bytes.now }
        requires within { length bytes.now ≤ lacks }
        ensures took { IfOk result (λ whole. TookBytes self.old bytes.now self.new whole) }
        ensures grown { HasGrown self.old.joined.items self.new.joined.items }
    {
        self.joined.extend_from_slice(bytes)?;
        self.taken = self.taken.saturating_add(bytes.len() as u64);
        Ok(self.enter_fragment(lacks - bytes.len() as u32, last))
    }

    /// Takes a header's byte, or the bytes of a fragment's data, of a piece that is not empty. Answers how
    /// many bytes it took, and whether a record is whole.
    fn advance(&mut self, piece: &[u8]) -> Result<(usize, bool), AllocError>
        requires some { 0 < length piece.now }
        requires ready { IsReady self.old }
        requires goes_on { fault_at (left_by self.old).phase ≡ None }
        ensures some { IfOk result (λ r. 0 < r.0) }
        ensures within { IfOk result (λ r. r.0 ≤ length piece.now) }
        ensures took { IfOk result (λ r. TookBytes self.old (take r.0 piece.now) self.new r.1) }
        ensures grown { HasGrown self.old.joined.items self.new.joined.items }
    {
        match self.phase {
            Phase::InHeader {
                bytes,
                count,
                is_open,
            } => Ok((1, self.take_header_byte(bytes, count, is_open, piece[0]))),
            Phase::InData { lacks, last } => {
                let size = piece.len().min(lacks as usize);
                let whole = self.take_data(lacks, last, &piece[..size])?;
                Ok((size, whole))
            }
            Phase::TooLong { .. } => Ok((0, false)),
        }
    }

    /// The place of the header whose length takes its record over the limit, behind one.
    fn fault(&self) -> Option<u64>
        ensures { result ≡ fault_at (left_by self.now).phase }
    {
        match self.phase {
            Phase::TooLong { at } => Some(at),
            _ => None,
        }
    }

    /// Takes bytes up to the end of the first record that they complete, or of a header that takes its record
    /// over the limit, else all. Answers how many it took, and whether a record is whole.
    fn take(&mut self, piece: &[u8]) -> Result<(usize, bool), AllocError>
        requires ready { IsReady self.old }
        ensures within { IfOk result (λ r. r.0 ≤ length piece.now) }
        ensures took { IfOk result (λ r. TookBytes self.old (take r.0 piece.now) self.new r.1) }
        ensures all { IfOk result (λ r. r.1 ≡ false → fault_at (left_by self.new).phase ≡ None
            → r.0 ≡ length piece.now) }
        ensures grown { HasGrown self.old.joined.items self.new.joined.items }
    {
        let mut used = 0;
        while used < piece.len() && self.fault().is_none() {
            let (count, whole) = self.advance(&piece[used..])?;
            used += count;
            if whole {
                return Ok((used, true));
            }
        }
        Ok((used, false))
    }

    /// Forgets the last whole record, where none is open.
    fn forget_whole(&mut self)
        requires is_open { IsOpen self.old.phase }
        ensures left { left_by self.new ≡ left_by self.old }
        ensures ready { IsReady self.new }
    {
        if let Phase::InHeader { is_open: false, .. } = self.phase {
            self.joined.clear();
        }
    }

    /// Takes bytes up to the end of the first record that they complete, and all where they complete none.
    /// Answers how many it took, and whether a record is whole. After want of memory all is as before.
    pub(crate) fn feed(&mut self, piece: &[u8]) -> Result<(usize, bool), RecordFault>
        requires is_open { IsOpen self.old.phase }
        ensures ok { IfOk result (λ r. FedBytes self.old piece.now r.0 self.new r.1) }
        ensures refused { MatchOption (fault_at (left_by self.old).phase) ⊤
            (λ at. result ≡ Err (record { at = at; code = RecordCode.RecordTooLong })) }
        ensures err { IfErr result (λ fault. RefusedBytes fault.code self.old piece.now fault.at self.new) }
        ensures is_open { IsOpen self.new.phase }
    {
        if let Some(at) = self.fault() {
            return Err(too_long(at));
        }
        self.forget_whole();
        let (taken, phase, len) = (self.taken, self.phase, self.joined.len());
        let Ok((used, is_whole)) = self.take(piece) else {
            self.taken = taken;
            self.phase = phase;
            self.joined.truncate(len);
            return Err(OUT_OF_MEMORY);
        };
        if let Some(at) = self.fault() {
            return Err(too_long(at));
        }
        Ok((used, is_whole))
    }

    /// The fault at the end of a stream that ends here.
    pub(crate) fn end_fault(&self) -> Option<RecordFault>
        requires { IsOpen self.now.phase }
        ensures { result ≡ end_fault (left_by self.now) }
    {
        match self.phase {
            Phase::InHeader { count, is_open, .. } => {
                if count == 0 && !is_open {
                    return None;
                }
                Some(self.truncated())
            }
            Phase::InData { .. } => Some(self.truncated()),
            Phase::TooLong { at } => Some(too_long(at)),
        }
    }

    /// The fault of a stream that ends here where it may not.
    fn truncated(&self) -> RecordFault
        ensures { result ≡ record { at = self.now.taken; code = RecordCode.Truncated } }
    {
        RecordFault {
            at: self.taken,
            code: RecordCode::Truncated,
        }
    }
}
