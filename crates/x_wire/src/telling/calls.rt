//! What a teller keeps of calls.
//!
//! An entry of a map by xids takes 12 bytes: so a call has there only the lower half of its number, and the
//! upper half is said by the map that it stands in. A new map is begun where the upper half changes.
ghost use Rattle.std.specs.Prelude.{◌≡◌, ◌+◌, ◌/◌, ◌<◌, ◌≤◌, ◌^◌, ◌++◌, ◌∷◌, [], ℕ, Some, None, cond, length};
ghost use Rattle.std.specs.Prelude.{IfOk, OnErr, OnOk, nat_eq};
ghost use Rattle.x_wire.specs.LastCalls.{call_kept, last_call, last_in, procedure_kept};

use std::alloc::{AllocFailed, Global};
use std::collections::BTreeMap;
use std::marker::Model;
use std::mem;
use x_schema::ProcedureIndex;
use x_text::NoMemory;

/// How many numbers of messages have one upper half.
const GENERATION: u64 = 1 << 32;

/// What stands for no procedure; no schema has so many.
const NO_PROCEDURE: u32 = u32::MAX;

/// The last call of an xid, as its replies need it.
#[derive(Clone, Copy, Debug)]
pub(super) struct LastCall {
    /// Its number among the messages, from 1.
    pub(super) number: u64,
    /// Where the procedure that it names stands in the schema, which may not have it.
    pub(super) procedure: Option<ProcedureIndex>,
}

/// A call as it is kept.
#[derive(Clone, Copy, Debug)]
pub(super) struct CompactCall {
    /// The lower half of its number.
    pub(super) number: u32,
    /// Its procedure, or [`NO_PROCEDURE`].
    pub(super) procedure: u32,
}

/// The calls whose numbers have one upper half: of each xid the last one.
type Generation = BTreeMap<u32, CompactCall>;

/// How many messages there were, and the last call of each xid.
#[derive(Drop)]
pub(super) struct Calls {
    count: u64,
    /// The generations before the last one, from the first on.
    before: Vec<Generation>,
    last: Generation,
}

impl Model for Calls {
    ghost use Rattle.std.specs.Prelude.{◌++◌, ◌∷◌, [], ◌/◌, ◌<◌, ◌≤◌, ◌^◌, length};
    ghost use Rattle.x_wire.specs.LastCalls.{CountedCalls, calls_in};

    ghost Value = { CountedCalls };

    ghost view = { λ c. record {
      count = c.count;
      calls = calls_in 0 (c.before.items ++ c.last ∷ []);
    } };

    ghost invariant = { λ c. (c.count < 2 ^ 64) × (length c.before.items ≤ c.count / 2 ^ 32) };
}

/// What is kept of a procedure's place.
fn compact_procedure(procedure: Option<ProcedureIndex>) -> Result<u32, NoMemory>
    ensures { IfOk result (λ kept. procedure_kept kept ≡ procedure) }
{
    let Some(index) = procedure else {
        return Ok(NO_PROCEDURE);
    };
    if index >= NO_PROCEDURE as usize {
        return Err(NoMemory);
    }
    Ok(index as u32)
}

impl CompactCall {
    /// What is kept of the call of this number.
    fn of(number: u64, procedure: Option<ProcedureIndex>) -> Result<CompactCall, NoMemory>
        ensures { IfOk result (λ kept. call_kept (number / 2 ^ 32) kept
            ≡ record { number = number; procedure = procedure }) }
    {
        Ok(CompactCall {
            number: (number % GENERATION) as u32,
            procedure: compact_procedure(procedure)?,
        })
    }

    /// The procedure's place.
    fn procedure(self) -> Option<ProcedureIndex>
        ensures { result ≡ procedure_kept self.procedure }
    {
        if self.procedure == NO_PROCEDURE {
            return None;
        }
        Some(self.procedure as usize)
    }

    /// The call of which this is kept in a generation.
    fn whole(self, generation: usize) -> LastCall
        requires { generation < 2 ^ 32 }
        ensures { result ≡ call_kept generation self }
    {
        LastCall {
            number: generation as u64 * GENERATION + u64::from(self.number),
            procedure: self.procedure(),
        }
    }
}

/// Begins a generation behind the last one.
fn begin_generation(
    alloc: Global,
    before: &mut Vec<Generation>,
    last: &mut Generation,
) -> Result<(), NoMemory>
    ensures begun { OnOk result (before.new.items ≡ before.old.items ++ last.old ∷ []) }
    ensures empty { OnOk result (last.new.entries ≡ []) }
    ensures same { OnErr result ((before.new.items ≡ before.old.items) × (last.new ≡ last.old)) }
{
    let full = mem::replace(last, BTreeMap::new(alloc));
    if let Err(AllocFailed { value }) = before.push(full) {
        *last = value;
        return Err(NoMemory);
    }
    Ok(())
}

/// Begins generations up to that of this upper half.
fn begin_generations(
    alloc: Global,
    before: &mut Vec<Generation>,
    last: &mut Generation,
    generation: usize,
) -> Result<(), NoMemory>
    requires { length before.old.items ≤ generation }
    ensures same { (xid : ℕ) → last_in 0 (before.new.items ++ last.new ∷ []) xid
        ≡ last_in 0 (before.old.items ++ last.old ∷ []) xid }
    ensures few { length before.new.items ≤ generation }
    ensures reached { OnOk result (length before.new.items ≡ generation) }
{
    while before.len() < generation {
        begin_generation(alloc, before, last)?;
    }
    Ok(())
}

/// The last call of an xid in the generations before the last one.
fn last_before(before: &[Generation], xid: u32) -> Option<LastCall>
    requires { length before.now ≤ 2 ^ 32 }
    ensures { result ≡ last_in 0 before.now xid }
{
    let mut left = before;
    while let Some((last, others)) = left.split_last() {
        if let Some(call) = last.get(&xid) {
            return Some(call.whole(others.len()));
        }
        left = others;
    }
    None
}

impl Calls {
    /// None. It takes no memory.
    pub(super) fn new(alloc: Global) -> Calls
        ensures count { result.count ≡ 0 }
        ensures none { (xid : ℕ) → last_call result xid ≡ None }
    {
        Calls {
            count: 0,
            before: Vec::new(alloc),
            last: BTreeMap::new(alloc),
        }
    }

    /// How many messages there were: the number of the last one.
    pub(super) fn count(&self) -> u64
        ensures { result ≡ self.now.count }
    {
        self.count
    }

    /// Counts a message more.
    pub(super) fn count_message(&mut self) -> Result<(), NoMemory>
        ensures counted { OnOk result (self.new.count ≡ self.old.count + 1) }
        ensures same { self.new.calls ≡ self.old.calls }
    {
        // No stream comes to so many messages.
        self.count = self.count.checked_add(1).ok_or(NoMemory)?;
        Ok(())
    }

    /// Keeps the message that was counted last as the last call of an xid.
    pub(super) fn put(
        &mut self,
        alloc: Global,
        xid: u32,
        procedure: Option<ProcedureIndex>,
    ) -> Result<(), NoMemory>
        ensures last { OnOk result ((q : ℕ) → last_call self.new q ≡ cond (nat_eq xid q)
            (Some (record { number = self.old.count; procedure = procedure })) (last_call self.old q)) }
        ensures same { OnErr result ((q : ℕ) → last_call self.new q ≡ last_call self.old q) }
        ensures count { self.new.count ≡ self.old.count }
    {
        let call = CompactCall::of(self.count, procedure)?;
        let generation = (self.count / GENERATION) as usize;
        begin_generations(alloc, &mut self.before, &mut self.last, generation)?;
        self.last.insert(xid, call)?;
        Ok(())
    }

    /// The last call of an xid, if there was one.
    pub(super) fn get(&self, xid: u32) -> Option<LastCall>
        ensures { result ≡ last_call self.now xid }
    {
        match self.last.get(&xid) {
            Some(call) => Some(call.whole(self.before.len())),
            None => last_before(&self.before, xid),
        }
    }
}
