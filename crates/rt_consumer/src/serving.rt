//! What a replica's server asks of it.
ghost use Rattle.std.specs.Prelude.{◌≡◌, true, option_map};
ghost use Rattle.rt_consumer.specs.Requests.{learns_in, learned, learned_at, rows_in};
ghost use Rattle.rt_consumer.specs.Serving.{held_in, file_in, told_in};

use crate::consumer::gone;
use crate::{Consumer, Phase, Stage, Unsealed};
use rt_base::Offset;
use rt_model::SeenMeta;
use rt_mutable::MutableSegment;
use rt_scan::SummarizedSegment;
use std::mem;

impl Consumer {
    /// The number of rows held.
    pub fn rows(&self) -> u32
        ensures { result ≡ rows_in self.now.phase }
    {
        match &self.phase {
            Phase::Unsealed(unsealed) => unsealed.rows.len(),
            Phase::Retained(kept) => kept.file.file().rows(),
            Phase::Committed(kept) => kept.file.file().rows(),
            Phase::Discarded(_) => 0,
        }
    }

    /// The rows by column; None where they are sealed or dropped.
    pub fn held(&self) -> Option<&MutableSegment>
        ensures { option_map (λ rows. rows.now) result ≡ held_in self.now.phase }
    {
        match &self.phase {
            Phase::Unsealed(unsealed) => Some(&unsealed.rows),
            _ => None,
        }
    }

    /// The sealed rows of a retained or a committed replica.
    pub fn sealed(&self) -> Option<&SummarizedSegment>
        ensures { option_map (λ file. file.now) result ≡ file_in self.now.phase }
    {
        match &self.phase {
            Phase::Retained(kept) => Some(&kept.file),
            Phase::Committed(kept) => Some(&kept.file),
            _ => None,
        }
    }

    /// The metadata of the commit that it was told of.
    pub fn told(&self) -> Option<&SeenMeta>
        ensures { option_map (λ done. done.now) result ≡ told_in self.now.phase }
    {
        match &self.phase {
            Phase::Unsealed(unsealed) => match &unsealed.stage {
                Stage::ConsumingToOnline { done, .. } => Some(done),
                Stage::Retaining(done) => Some(done),
                _ => None,
            },
            Phase::Retained(kept) => Some(&kept.done),
            Phase::Committed(kept) => Some(&kept.done),
            Phase::Discarded(_) => None,
        }
    }

    /// Whether it may be told of its segment's commit.
    pub fn learns(&self) -> bool
        ensures { result ≡ learns_in self.now.phase }
    {
        match &self.phase {
            Phase::Unsealed(unsealed) => !matches!(
                unsealed.stage,
                Stage::ConsumingToOnline { .. } | Stage::Retaining(_)
            ),
            _ => false,
        }
    }

    /// Tells a replica of its segment's commit, which ends at `end`: with all its rows it is to retain them, and with
    /// fewer it consumes up to the end. Takes no memory.
    pub fn learn(&mut self, done: SeenMeta, end: Offset)
        requires due { learns_in self.old.phase ≡ true }
        ensures { self.new ≡ learned self.old self.old.phase done end }
    {
        let phase = mem::replace(&mut self.phase, gone(self.start));
        match phase {
            Phase::Unsealed(unsealed) => {
                let learned = learned_at(unsealed.rows, done, end);
                drop(mem::replace(&mut self.phase, learned));
                self.waited = None;
            }
            _ => unreachable!(),
        }
    }
}

/// What rows become when their segment's commit is told.
fn learned_at(rows: MutableSegment, done: SeenMeta, end: Offset) -> Phase
    ensures { result ≡ learned_at rows done end }
{
    if rows.end() < end {
        let stage = Stage::ConsumingToOnline { end, done };
        Phase::Unsealed(Unsealed { rows, stage })
    } else {
        let stage = Stage::Retaining(done);
        Phase::Unsealed(Unsealed { rows, stage })
    }
}
