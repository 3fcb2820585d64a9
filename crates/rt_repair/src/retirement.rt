ghost use Rattle.std.specs.Prelude.{◌≡◌, length};
ghost use Rattle.rt_model.specs.Ideal.{remove_segment_of};
ghost use Rattle.rt_repair.specs.RetireSteps.{Tells, with_ideal, removed, deleted};

use crate::read_node::lowest_node;
use crate::retired::retire_lowest;
use crate::{ReadNode, RetireStep, Retiring};
use rt_base::{Moment, Partition, Sequence};
use rt_ideal::remove_segment;
use rt_lists::Items;
use rt_model::{IdealEntry, IdealState, Key, Listed, Node, Seen, Setup};
use rt_store::{Store, StoreRefused};
use rt_znodes::{entries_of, state_of};
use std::alloc::{AllocError, Global};
use std::marker::Model;
use std::mem;

/// How far a retirement is, with what it has read so far.
#[derive(Drop, PartialEq, Eq)]
pub enum RetireStage {
    Listing,
    /// It has listed the metadata: the lowest segment, where it isn't the last.
    Reading {
        lowest: Option<ReadNode>,
    },
    /// It has read the ideal state too.
    Writing {
        lowest: Option<ReadNode>,
        ideal: Seen,
    },
    Ended,
}

/// The retiring of a partition's lowest segment: it lists the partition's metadata, reads the ideal state and makes one
/// write, one call of the store a step. It keeps what it read, and reads nothing again.
#[derive(Drop)]
pub struct Retire {
    partition: Partition,
    keep: u64,
    stage: RetireStage,
}

impl Model for Retire {
    ghost use Rattle.rt_repair.specs.Retirement.{Retirement};

    ghost Value = { Retirement };

    ghost view = { λ a. record { partition = a.partition; keep = a.keep; stage = a.stage } };
}

impl Retire {
    ghost use Rattle.std.specs.Prelude.{◌≡◌, ◌<◌, IfOk, IsSome, unwrap_or};
    ghost use Rattle.rt_base.specs.declared.limits.TheConstants.{LAST_MOMENT};
    ghost use Rattle.rt_model.specs.Lawful.{IsLawful};
    ghost use Rattle.rt_model.specs.Starting.{Starting};
    ghost use Rattle.rt_repair.specs.declared.retiring.RetireStep.TheVariants.{Failed};
    ghost use Rattle.rt_repair.specs.IsRetire.{IsRetire};
    ghost use Rattle.rt_repair.specs.ReadNode.{listed_again};
    ghost use Rattle.rt_repair.specs.RepairSteps.{MaySet};
    ghost use Rattle.rt_repair.specs.Retired.{retire_by};
    ghost use Rattle.rt_repair.specs.Retirement.{
      beginning,
      is_ended,
      IsUnended,
      retiring_at,
      remove_write,
      delete_write,
      set_by,
      set_entries,
    };
    ghost use Rattle.rt_repair.specs.RetireSteps.{
      Steps,
      Gives,
      Written,
      Does,
      Removes,
      Deletes,
      MayWriteAt,
      MayDo,
      after_list,
      after_read,
      fails,
    };

    /// A retirement of a partition that has read nothing yet. It needs a setup with a retention, and a partition below
    /// the setup's count. Fails only where memory is refused.
    pub fn begin(_alloc: Global, partition: Partition, setup: &Setup) -> Result<Self, AllocError>
        requires kept { IsSome setup.now.retention }
        requires within { partition.0 < setup.now.partitions }
        ensures { IfOk result (λ retire. retire ≡ beginning partition (unwrap_or setup.now.retention 0)) }
    {
        Ok(Retire {
            partition,
            keep: setup.retention.unwrap_or(0),
            stage: RetireStage::Listing,
        })
    }

    /// Whether the retirement has ended.
    pub fn ended(&self) -> bool
        ensures { result ≡ is_ended self.now.stage }
    {
        matches!(self.stage, RetireStage::Ended)
    }

    /// The number of entries of the ideal state that `step` at `now` would set; none where it would set none. Takes
    /// no memory.
    pub fn sets(&self, now: Moment) -> Option<u64>
        ensures { result ≡ set_entries self.now now }
    {
        match &self.stage {
            RetireStage::Writing { lowest, ideal } => self.set_count(now, lowest, ideal),
            RetireStage::Listing => None,
            RetireStage::Reading { .. } => None,
            RetireStage::Ended => None,
        }
    }

    /// The next step, at `now`: the list, then the ideal state, then what is decided by these. It needs a retirement
    /// that has not ended, and a store whose caller has seen the starting contents. Fails only where memory is
    /// refused; the retirement is then as before, and nothing was written.
    pub fn step<S: Store>(
        &mut self,
        alloc: Global,
        now: Moment,
        store: &mut S,
    ) -> Result<RetireStep, AllocError>
        requires unended { IsUnended self.old.stage }
        requires ready { (s : Starting) × IsRetire s (S.meaning store.old).seen self.old }
        ensures step { Steps (S.meaning store.old) (S.meaning store.new) self.old now self.new result }
        ensures ready { (s : Starting) → IsRetire s (S.meaning store.old).seen self.old
            → IsRetire s (S.meaning store.new).seen self.new }
        ensures failed { IfOk result (λ did. did ≡ Failed
            → (S.meaning store.old).faults < (S.meaning store.new).faults) }
    {
        self.take_step(alloc, now, store)
    }

    #[tactic(auto, using(crate::proofs::RetireRunningOut::list_ran_out, crate::proofs::RetireRunningOut::read_ran_out))]
    fn take_step<S: Store>(
        &mut self,
        alloc: Global,
        now: Moment,
        store: &mut S,
    ) -> Result<RetireStep, AllocError>
        requires unended { IsUnended self.old.stage }
        requires may { MayWriteAt (S.meaning store.old).seen self.old now self.old.stage }
        ensures { Steps (S.meaning store.old) (S.meaning store.new) self.old now self.new result }
    {
        match &self.stage {
            RetireStage::Listing => {
                let answer = store.list(alloc, self.partition);
                self.listed(answer)
            }
            RetireStage::Reading { .. } => {
                let answer = store.read(alloc, Key::Ideal);
                self.read(answer)
            }
            RetireStage::Writing { lowest, ideal } => {
                let did = self.write(alloc, now, lowest, ideal, store)?;
                self.stage = RetireStage::Ended;
                Ok(did)
            }
            RetireStage::Ended => unreachable!(),
        }
    }

    /// Keeps what was listed.
    fn listed(
        &mut self,
        answer: Result<Items<Listed>, StoreRefused>,
    ) -> Result<RetireStep, AllocError>
        ensures { Gives self.old (after_list self.old answer) self.new result }
    {
        match answer {
            Ok(nodes) => {
                let lowest = lowest_node(self.partition, nodes);
                self.stage = RetireStage::Reading { lowest };
                Ok(RetireStep::Listed)
            }
            Err(refused) => self.fail(refused),
        }
    }

    /// Keeps the ideal state that was read.
    fn read(&mut self, answer: Result<Seen, StoreRefused>) -> Result<RetireStep, AllocError>
        ensures { Gives self.old (after_read self.old answer) self.new result }
    {
        match answer {
            Ok(ideal) => {
                let stage = mem::replace(&mut self.stage, RetireStage::Ended);
                self.stage = with_ideal(stage, ideal);
                Ok(RetireStep::IdealRead)
            }
            Err(refused) => self.fail(refused),
        }
    }

    /// Ends the retirement after a fault, but not after want of memory.
    fn fail(&mut self, refused: StoreRefused) -> Result<RetireStep, AllocError>
        ensures { Gives self.old (fails self.old refused) self.new result }
    {
        if refused == StoreRefused::Memory {
            return Err(AllocError);
        }
        self.stage = RetireStage::Ended;
        Ok(RetireStep::Failed)
    }

    /// What is decided over the lowest node and the entries that were read.
    fn retiring(&self, lowest: &Option<ReadNode>, entries: &[IdealEntry], now: Moment) -> Retiring
        ensures { result ≡ retire_by self.now.partition entries.now now self.now.keep (listed_again lowest.now) }
    {
        let Some(lowest) = lowest else {
            return Retiring::Nothing;
        };
        match &lowest.seen.node {
            Node::Meta(meta) => {
                retire_lowest(
                    lowest.sequence,
                    meta,
                    self.partition,
                    entries,
                    now,
                    self.keep,
                )
            }
            Node::Ideal(_) => Retiring::Nothing,
            Node::Boot => Retiring::Nothing,
            Node::Gone => Retiring::Nothing,
        }
    }

    /// The number of entries that the write at `now` would set.
    fn set_count(&self, now: Moment, lowest: &Option<ReadNode>, ideal: &Seen) -> Option<u64>
        ensures { result ≡ set_by self.now ideal.now (retiring_at self.now now lowest.now ideal.now) }
    {
        let entries = entries_of(&ideal.node);
        match self.retiring(lowest, entries, now) {
            Retiring::Remove(sequence) => Some(remaining(entries, self.partition, sequence)),
            Retiring::Nothing => None,
            Retiring::Delete(_) => None,
        }
    }

    /// Carries out what is decided, by one write at most.
    fn write<S: Store>(
        &self,
        alloc: Global,
        now: Moment,
        lowest: &Option<ReadNode>,
        ideal: &Seen,
        store: &mut S,
    ) -> Result<RetireStep, AllocError>
        requires may { MayDo (S.meaning store.old).seen self.now lowest.now ideal.now
            (retiring_at self.now now lowest.now ideal.now) }
        ensures { Written (S.meaning store.old) (S.meaning store.new) (λ did.
            Does (S.meaning store.old) (S.meaning store.new) self.now lowest.now ideal.now did
            (retiring_at self.now now lowest.now ideal.now)) result }
    {
        match self.retiring(lowest, entries_of(&ideal.node), now) {
            Retiring::Nothing => Ok(RetireStep::Nothing),
            Retiring::Remove(sequence) => self.remove(alloc, sequence, ideal, store),
            Retiring::Delete(sequence) => self.delete(alloc, sequence, lowest, store),
        }
    }

    /// Takes the segment's entries out of the ideal state that was read.
    #[tactic(auto, using(crate::proofs::RetireRunningOut::remove_ran_out))]
    fn remove<S: Store>(
        &self,
        alloc: Global,
        sequence: Sequence,
        ideal: &Seen,
        store: &mut S,
    ) -> Result<RetireStep, AllocError>
        requires may { IsLawful (S.meaning store.old).seen (remove_write self.now sequence ideal.now) }
        ensures { Written (S.meaning store.old) (S.meaning store.new) (λ did.
            Removes (S.meaning store.old) (S.meaning store.new) self.now sequence ideal.now did) result }
    {
        let empty = IdealState {
            entries: Items::new(alloc),
        };
        let state = state_of(&ideal.node, &empty);
        let node = Node::Ideal(remove_segment(alloc, state, self.partition, sequence)?);
        let answer = store.compare_and_set(alloc, ideal, &node);
        removed(sequence, answer)
    }

    /// Deletes the segment's node, as it was listed.
    #[tactic(auto, using(crate::proofs::RetireRunningOut::delete_ran_out))]
    fn delete<S: Store>(
        &self,
        alloc: Global,
        sequence: Sequence,
        lowest: &Option<ReadNode>,
        store: &mut S,
    ) -> Result<RetireStep, AllocError>
        requires may { MaySet (S.meaning store.old).seen (delete_write lowest.now) }
        ensures { Written (S.meaning store.old) (S.meaning store.new) (λ did.
            Deletes (S.meaning store.old) (S.meaning store.new) sequence (delete_write lowest.now) did) result }
    {
        let Some(lowest) = lowest else {
            return Ok(RetireStep::Nothing);
        };
        let answer = store.delete(alloc, &lowest.seen);
        deleted(sequence, answer)
    }
}

/// The ideal state beside what was listed.
fn with_ideal(stage: RetireStage, ideal: Seen) -> RetireStage
    ensures { result ≡ with_ideal stage ideal }
{
    match stage {
        RetireStage::Reading { lowest } => RetireStage::Writing { lowest, ideal },
        RetireStage::Listing => RetireStage::Ended,
        RetireStage::Writing { .. } => RetireStage::Ended,
        RetireStage::Ended => RetireStage::Ended,
    }
}

/// The number of entries that stay once a segment's have left.
fn remaining(entries: &[IdealEntry], partition: Partition, sequence: Sequence) -> u64
    ensures { result ≡ length (remove_segment_of entries.now partition sequence) }
{
    let mut count = 0;
    for entry in entries {
        if !(entry.partition == partition && entry.sequence == sequence) {
            count += 1;
        }
    }
    count
}

/// What the answer to the set of the ideal state tells.
fn removed(sequence: Sequence, answer: Result<u64, StoreRefused>) -> Result<RetireStep, AllocError>
    ensures { Tells (removed sequence answer) result }
{
    match answer {
        Ok(version) => Ok(RetireStep::Removed(sequence, version)),
        Err(StoreRefused::NoNode) => Ok(RetireStep::Failed),
        Err(StoreRefused::Exists { .. }) => Ok(RetireStep::Failed),
        Err(StoreRefused::VersionChanged { expected, found }) => {
            Ok(RetireStep::Changed { expected, found })
        }
        Err(StoreRefused::Failed) => Ok(RetireStep::Failed),
        Err(StoreRefused::Memory) => Err(AllocError),
    }
}

/// What the answer to the deletion of a segment's node tells.
fn deleted(sequence: Sequence, answer: Result<(), StoreRefused>) -> Result<RetireStep, AllocError>
    ensures { Tells (deleted sequence answer) result }
{
    match answer {
        Ok(()) => Ok(RetireStep::Deleted(sequence)),
        Err(StoreRefused::NoNode) => Ok(RetireStep::Gone(sequence)),
        Err(StoreRefused::Exists { .. }) => Ok(RetireStep::Failed),
        Err(StoreRefused::VersionChanged { expected, found }) => {
            Ok(RetireStep::Changed { expected, found })
        }
        Err(StoreRefused::Failed) => Ok(RetireStep::Failed),
        Err(StoreRefused::Memory) => Err(AllocError),
    }
}
