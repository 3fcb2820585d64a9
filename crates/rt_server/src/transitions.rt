//! A segment moves to what the ideal state asks.
ghost use Rattle.std.specs.Prelude.{◌≡◌, Some, IfOk, OnErr};
ghost use Rattle.rt_model.specs.Setup.{IsSetup};
ghost use Rattle.rt_consumer.specs.Consumer.{end_of};
ghost use Rattle.rt_server.specs.Past.{MayLearn, MayLearnOf};
ghost use Rattle.rt_server.specs.Table.{entry_of};
ghost use Rattle.rt_server.specs.Transition.{committed, moved_by, moved_to, opened, removed, transition};

use crate::table::Table;
use rt_base::{Moment, Offset, Partition, Sequence};
use rt_entry::Entry;
use rt_model::{Mode, ReplicaState, SeenMeta, Setup, Status};
use rt_replica::Replica;
use std::alloc::{AllocError, Global};

impl Table {
    /// Moves a segment to its target, by its metadata or by that it has none, and answers its state after it. Where
    /// memory is refused, all is as before.
    pub(crate) fn transit(
        &mut self,
        alloc: Global,
        setup: &Setup,
        partition: Partition,
        sequence: Sequence,
        now: Moment,
        mode: Mode,
        seen: Option<SeenMeta>,
    ) -> Result<ReplicaState, AllocError>
        requires setup { IsSetup setup.now }
        requires past { MayLearn self.old partition sequence seen }
        ensures ok { IfOk result (λ state. (state, self.new) ≡ transition setup.now self.old partition sequence now mode seen) }
        ensures err { OnErr result (self.new ≡ self.old) }
    {
        match mode {
            Mode::Offline => Ok(self.leave(partition, sequence)),
            Mode::Consuming => self.stay(alloc, setup, partition, sequence, now, seen),
            Mode::Online => self.stay(alloc, setup, partition, sequence, now, seen),
        }
    }

    /// Moves a segment that is to be there; without a node its entry goes.
    fn stay(
        &mut self,
        alloc: Global,
        setup: &Setup,
        partition: Partition,
        sequence: Sequence,
        now: Moment,
        seen: Option<SeenMeta>,
    ) -> Result<ReplicaState, AllocError>
        requires setup { IsSetup setup.now }
        requires past { MayLearn self.old partition sequence seen }
        ensures ok { IfOk result (λ state. (state, self.new) ≡ moved_to setup.now self.old partition sequence now seen) }
        ensures err { OnErr result (self.new ≡ self.old) }
    {
        match seen {
            Some(seen) => self.transit_by(alloc, setup, partition, sequence, now, seen),
            None => Ok(self.leave(partition, sequence)),
        }
    }

    /// Moves a segment by its metadata.
    fn transit_by(
        &mut self,
        alloc: Global,
        setup: &Setup,
        partition: Partition,
        sequence: Sequence,
        now: Moment,
        seen: SeenMeta,
    ) -> Result<ReplicaState, AllocError>
        requires setup { IsSetup setup.now }
        requires past { MayLearnOf self.old partition sequence seen }
        ensures ok { IfOk result (λ state. (state, self.new) ≡ moved_by setup.now self.old partition sequence now seen seen.meta.status) }
        ensures err { OnErr result (self.new ≡ self.old) }
    {
        match &seen.meta.status {
            Status::InProgress => self.open(alloc, setup, partition, sequence, now, &seen),
            Status::Done(commit) => {
                let end = commit.end;
                self.commit(partition, sequence, seen, end)
            }
            Status::Abandoned => Ok(self.leave(partition, sequence)),
        }
    }

    /// Removes a segment's entry.
    pub(crate) fn leave(&mut self, partition: Partition, sequence: Sequence) -> ReplicaState
        ensures { (result, self.new) ≡ removed self.old partition sequence }
    {
        self.remove(partition, sequence);
        ReplicaState::Discarded
    }

    /// Starts a replica of a segment in progress, where there is none.
    fn open(
        &mut self,
        alloc: Global,
        setup: &Setup,
        partition: Partition,
        sequence: Sequence,
        now: Moment,
        seen: &SeenMeta,
    ) -> Result<ReplicaState, AllocError>
        requires { IsSetup setup.now }
        ensures ok { IfOk result (λ state. (state, self.new) ≡ opened setup.now self.old partition sequence now seen.now (entry_of self.old partition sequence)) }
        ensures err { OnErr result (self.new ≡ self.old) }
    {
        if let Some(entry) = self.entry(partition, sequence) {
            return Ok(entry.state());
        }
        let replica = Replica::start(alloc, setup, partition, sequence, &seen.meta, now)?;
        self.insert(partition, sequence, Entry::Replica(replica))?;
        Ok(ReplicaState::InitialConsuming)
    }

    /// Tells a segment's entry of its commit, which ends at `end`; without an entry the file is wanted.
    #[tactic(auto, using(crate::proofs::Kept::may_learn_entry))]
    fn commit(
        &mut self,
        partition: Partition,
        sequence: Sequence,
        done: SeenMeta,
        end: Offset,
    ) -> Result<ReplicaState, AllocError>
        requires end { end_of done ≡ Some end }
        requires past { MayLearnOf self.old partition sequence done }
        ensures ok { IfOk result (λ state. (state, self.new) ≡ committed self.old partition sequence done end (entry_of self.old partition sequence)) }
        ensures err { OnErr result (self.new ≡ self.old) }
    {
        let Some(entry) = self.entries.get_mut(&(partition, sequence)) else {
            self.insert(partition, sequence, Entry::wanting(done))?;
            return Ok(ReplicaState::Discarded);
        };
        Ok(entry.learn(done, end))
    }
}
