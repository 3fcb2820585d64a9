ghost use Rattle.std.specs.Prelude.{◌≡◌, length, drop, min};
ghost use Rattle.rt_base.specs.FaultPlan.{planned};
ghost use Rattle.rt_base.specs.Source.{Reads};
ghost use Rattle.rt_base.specs.MemorySource.{source_meaning, read_answer, after_read, filled};

use crate::fault_plan::FaultPlan;
use crate::{Failed, Source};
use std::marker::Model;

/// A source over bytes in memory, of which chosen calls fail.
#[derive(Drop)]
pub struct MemorySource {
    bytes: Vec<u8>,
    at: usize,
    plan: FaultPlan,
}

impl Model for MemorySource {
    ghost use Rattle.std.specs.Prelude.{drop, vec_len, ◌≤◌};
    ghost use Rattle.rt_base.specs.MemorySource.{SourceTold};

    ghost Value = { SourceTold };

    ghost view = { λ s. record { left = drop s.at s.bytes.items; plan = s.plan } };

    ghost invariant = { λ s. s.at ≤ vec_len s.bytes };
}

impl MemorySource {
    /// A source of these bytes that fails exactly the calls whose numbers, from 0, stand in `fails`.
    pub fn make(bytes: Vec<u8>, fails: Vec<u64>) -> MemorySource
        ensures { result ≡ record { left = bytes.items; plan = planned fails.items } }
    {
        MemorySource {
            bytes,
            at: 0,
            plan: FaultPlan::of(fails),
        }
    }

    /// Gives what fits the piece, where the call is none that fails.
    fn give(&mut self, into: &mut [u8]) -> Result<usize, Failed>
        ensures answer { result ≡ read_answer self.old (length into.old) }
        ensures after { self.new ≡ after_read self.old (length into.old) }
        ensures piece { into.new ≡ filled self.old into.old }
    {
        if self.plan.meets_fault() {
            return Err(Failed);
        }
        let left = &self.bytes[self.at..];
        let count = into.len().min(left.len());
        into[..count].copy_from_slice(&left[..count]);
        self.at += count;
        Ok(count)
    }
}

impl Source for MemorySource {
    ghost meaning = { source_meaning };

    /// Gives as many bytes as fit the piece and are left.
    fn read(&mut self, into: &mut [u8]) -> Result<usize, Failed>
        ensures source { Reads (source_meaning self.old) (source_meaning self.new) into.new result }
        ensures answer { result ≡ read_answer self.old (length into.old) }
        ensures after { self.new ≡ after_read self.old (length into.old) }
        ensures piece { into.new ≡ filled self.old into.old }
    {
        self.give(into)
    }
}
