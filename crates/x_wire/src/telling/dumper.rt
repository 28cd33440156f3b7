//! What is printed of a stream that comes in blocks.
ghost use Rattle.std.specs.Prelude.{◌≡◌, ◌<◌, ◌||◌, ◌∷◌, [], ℕ, List, false, length, true, IfOk, OnErr};
ghost use Rattle.x_schema.specs.Schema.{Schema};
ghost use Rattle.x_streams.specs.Engines.{is_refused};
ghost use Rattle.x_streams.specs.Writing.{Adds};
ghost use Rattle.x_wire.specs.Dumpers.{HasTold, IsAt, IsOver, IsOverAt, IsUnder, IsUsed, Tells, TellsFront};
ghost use Rattle.x_wire.specs.Dumpers.{TellsMore, front_taken};
ghost use Rattle.x_wire.specs.Framers.{IsOpen, left_by};
ghost use Rattle.x_wire.specs.MessageTexts.{Told, plain};
ghost use Rattle.x_wire.specs.RecordFaults.{end_fault};
ghost use Rattle.x_wire.specs.StreamTexts.{end_told};

use super::lines::add_record_fault;
use super::teller::Teller;
use crate::RecordCode;
use crate::records::Framer;
use std::alloc::Global;
use x_schema::Schema;
use x_text::{NoMemory, Outcome, Pen, Sink};

/// Tells the messages of a stream that comes in blocks.
#[derive(Drop)]
pub(super) struct Dumper {
    framer: Framer,
    teller: Teller,
    /// Whether a fault was told.
    refused: bool,
}

impl Dumper {
    /// Of a stream of which no byte came. It takes no memory.
    pub(super) fn new(alloc: Global) -> Dumper
        ensures is_open { IsOpen result.framer.phase }
        ensures at { (s : Schema) → IsAt s [] (plain []) result }
    {
        Dumper {
            framer: Framer::new(alloc),
            teller: Teller::new(alloc),
            refused: false,
        }
    }

    /// Tells the messages that become whole by a block, and answers whether the stream goes on: it ends
    /// behind a header that takes its record over the limit. Without memory the messages before are told.
    pub(super) fn take<S: Sink>(
        &mut self,
        alloc: Global,
        schema: &Schema,
        block: &[u8],
        pen: &mut Pen,
        sink: &mut S,
    ) -> Result<bool, NoMemory>
        requires is_open { IsOpen self.old.framer.phase }
        ensures is_open { IsOpen self.new.framer.phase }
        ensures told { IfOk result (λ _. (read : List ℕ) (t : Told) → IsAt schema.now read t self.old →
            Tells schema.now read t block.now self.new pen.old (S.state sink.old) pen.new
            (S.state sink.new)) }
        ensures over { IfOk result (λ goes. goes ≡ false → IsOver self.new) }
        ensures under { IfOk result (λ goes. goes ≡ true → 0 < length block.now → IsUnder self.new) }
        ensures front { OnErr result ((read : List ℕ) (t : Told) → IsAt schema.now read t self.old →
            TellsFront schema.now read t block.now pen.old (S.state sink.old) pen.new (S.state sink.new)) }
    {
        let mut rest = block;
        while !rest.is_empty() {
            let Some(used) = self.take_record(alloc, schema, rest, pen, sink)? else {
                return Ok(false);
            };
            rest = &rest[used..];
        }
        Ok(true)
    }

    /// Takes bytes up to the end of the first record that they complete, if they complete one, and tells its
    /// message. Answers how many it took, or `None` behind a header that takes its record over the limit.
    fn take_record<S: Sink>(
        &mut self,
        alloc: Global,
        schema: &Schema,
        piece: &[u8],
        pen: &mut Pen,
        sink: &mut S,
    ) -> Result<Option<usize>, NoMemory>
        requires is_open { IsOpen self.old.framer.phase }
        ensures is_open { IsOpen self.new.framer.phase }
        ensures used { IfOk result (λ used. IsUsed piece.now used) }
        ensures told { IfOk result (λ used. (read : List ℕ) (t : Told) → IsAt schema.now read t self.old →
            Tells schema.now read t (front_taken piece.now used) self.new
            pen.old (S.state sink.old) pen.new (S.state sink.new)) }
        ensures over { IfOk result (λ used. IsOverAt used self.new) }
        ensures same { OnErr result ((pen.new ≡ pen.old) × (sink.new ≡ sink.old)) }
    {
        match self.framer.feed(piece) {
            Ok((used, is_whole)) => {
                if is_whole {
                    self.tell_record(alloc, schema, pen, sink)?;
                }
                Ok(Some(used))
            }
            Err(fault) => match fault.code {
                RecordCode::NoMemory => Err(NoMemory),
                _ => Ok(None),
            },
        }
    }

    /// Tells the message of the last whole record. Without memory nothing is told.
    fn tell_record<S: Sink>(
        &mut self,
        alloc: Global,
        schema: &Schema,
        pen: &mut Pen,
        sink: &mut S,
    ) -> Result<(), NoMemory>
        ensures told { IfOk result (λ _. (told : List (List ℕ)) (t : Told)
            → HasTold schema.now told t self.old.teller self.old.refused
            → TellsMore schema.now told (self.old.framer.joined.items ∷ []) t self.new.teller self.new.refused
            pen.old (S.state sink.old) pen.new (S.state sink.new)) }
        ensures framer { self.new.framer ≡ self.old.framer }
        ensures same { OnErr result ((pen.new ≡ pen.old) × (sink.new ≡ sink.old)) }
    {
        let record = self.framer.joined();
        let refused = self.teller.tell(alloc, schema, record, pen, sink)?;
        self.refused = self.refused || refused;
        Ok(())
    }

    /// Tells the fault of the stream, where it has one if it ends here, and answers how all went.
    pub(super) fn tell_end<S: Sink>(&self, pen: &mut Pen, sink: &mut S) -> Outcome
        requires { IsOpen self.now.framer.phase }
        ensures added { Adds pen.old (S.state sink.old) pen.new (S.state sink.new)
            (end_told (end_fault (left_by self.now.framer))).text }
        ensures refused { is_refused result
            ≡ (self.now.refused || (end_told (end_fault (left_by self.now.framer))).refused) }
    {
        match self.framer.end_fault() {
            Some(fault) => {
                add_record_fault(fault, pen, sink);
                Outcome::Refused
            }
            None => Outcome::of(self.refused),
        }
    }
}
