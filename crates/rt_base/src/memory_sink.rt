ghost use Rattle.std.specs.Prelude.{◌≡◌, [], IfOk, length};
ghost use Rattle.rt_base.specs.FaultPlan.{planned};
ghost use Rattle.rt_base.specs.Sink.{Writes};
ghost use Rattle.rt_base.specs.MemorySink.{sink_meaning, write_answer, after_write};

use crate::fault_plan::FaultPlan;
use crate::{Failed, Sink};
use std::alloc::{AllocError, Global};
use std::marker::Model;

/// A sink into memory, which takes its room when it is made. Chosen calls fail, and each call with a
/// piece that isn't empty once no room is left.
#[derive(Drop)]
pub struct MemorySink {
    bytes: Vec<u8>,
    room: usize,
    plan: FaultPlan,
    full: u64,
}

impl Model for MemorySink {
    ghost use Rattle.std.specs.Prelude.{vec_len, vec_capacity, ◌≤◌};
    ghost use Rattle.rt_base.specs.MemorySink.{SinkTold};

    ghost Value = { SinkTold };

    ghost view = { λ s.
        record { taken = s.bytes.items; room = s.room; plan = s.plan; full = s.full } };

    ghost invariant = { λ s. (vec_len s.bytes ≤ s.room) × (s.room ≤ vec_capacity s.bytes) };
}

impl MemorySink {
    /// A sink of this many bytes that fails the calls whose numbers, from 0, stand in `fails`.
    pub fn make(alloc: Global, room: u64, fails: Vec<u64>) -> Result<MemorySink, AllocError>
        ensures { IfOk result (λ sink.
            sink ≡ record { taken = []; room = room; plan = planned fails.items; full = 0 }) }
    {
        let room = room as usize;
        let bytes = Vec::with_capacity(alloc, room)?;
        Ok(MemorySink {
            bytes,
            room,
            plan: FaultPlan::of(fails),
            full: 0,
        })
    }

    /// What was taken.
    pub fn bytes(&self) -> &[u8]
        ensures { result.now ≡ self.now.taken }
    {
        self.bytes.as_slice()
    }

    /// Takes what still fits, where the call is none that fails.
    fn take_in(&mut self, piece: &[u8]) -> Result<usize, Failed>
        ensures answer { result ≡ write_answer self.old (length piece.now) }
        ensures after { self.new ≡ after_write self.old piece.now }
    {
        if self.plan.meets_fault() {
            return Err(Failed);
        }
        let count = piece.len().min(self.room - self.bytes.len());
        if count == 0 && !piece.is_empty() {
            self.full = self.full.saturating_add(1);
            return Err(Failed);
        }
        if self.bytes.extend_from_slice(&piece[..count]).is_err() {
            unreachable!()
        }
        Ok(count)
    }
}

impl Sink for MemorySink {
    ghost meaning = { sink_meaning };

    /// Takes what still fits.
    fn write(&mut self, piece: &[u8]) -> Result<usize, Failed>
        ensures sink { Writes (sink_meaning self.old) (sink_meaning self.new) piece.now result }
        ensures answer { result ≡ write_answer self.old (length piece.now) }
        ensures after { self.new ≡ after_write self.old piece.now }
    {
        self.take_in(piece)
    }
}
