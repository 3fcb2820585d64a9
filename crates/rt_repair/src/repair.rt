ghost use Rattle.std.specs.Prelude.{◌≡◌};
ghost use Rattle.rt_repair.specs.RepairSteps.{Tells, with_ideal, created, abandoned, ideal_set};

use crate::decided::decide_on;
use crate::read_node::last_node;
use crate::{ReadNode, RepairStep};
use rt_base::{Instance, Moment, Offset, Partition, Sequence};
use rt_ideal::{add_consuming, comes_next, commit_step};
use rt_lists::{Items, Text};
use rt_meta::{abandoned_of, first};
use rt_model::{Decision, IdealEntry, IdealState, Key, Listed, Node, Seen, Setup};
use rt_store::{Store, StoreRefused};
use rt_znodes::{entries_of, state_of};
use std::alloc::{AllocError, Global};
use std::marker::Model;
use std::mem;

/// How far a repair is, with what it has read so far.
#[derive(Drop, PartialEq, Eq)]
pub enum RepairStage {
    Listing,
    /// It has listed the metadata: the last segment, and whether the one before it is Done.
    Reading {
        last: Option<ReadNode>,
        follows_done: bool,
    },
    /// It has read the ideal state too.
    Writing {
        last: Option<ReadNode>,
        follows_done: bool,
        ideal: Seen,
    },
    Ended,
}

/// The repair of one partition: it lists the partition's metadata, reads the ideal state and makes one write, one
/// call of the store a step. It keeps what it read, and reads nothing again.
#[derive(Drop)]
pub struct Repair {
    partition: Partition,
    table: Text,
    instances: Items<Instance>,
    grace: u64,
    stage: RepairStage,
}

impl Model for Repair {
    ghost use Rattle.rt_repair.specs.Repairing.{Repairing};

    ghost Value = { Repairing };

    ghost view = { λ a. record {
      partition = a.partition;
      table = a.table;
      instances = a.instances;
      grace = a.grace;
      stage = a.stage;
    } };
}

impl Repair {
    ghost use Rattle.std.specs.Prelude.{◌≡◌, ◌≤◌, ◌<◌, Bool, IfOk};
    ghost use Rattle.rt_base.specs.declared.limits.TheConstants.{LAST_MOMENT};
    ghost use Rattle.rt_model.specs.Entries.{entries_by};
    ghost use Rattle.rt_model.specs.Lawful.{IsLawful};
    ghost use Rattle.rt_model.specs.Repair.{decide_last};
    ghost use Rattle.rt_model.specs.Setup.{IsSetup};
    ghost use Rattle.rt_model.specs.Starting.{Starting};
    ghost use Rattle.rt_names.specs.Table.{IsTableName};
    ghost use Rattle.rt_repair.specs.declared.repair_step.RepairStep.TheVariants.{Failed};
    ghost use Rattle.rt_repair.specs.IsRepair.{IsRepair};
    ghost use Rattle.rt_repair.specs.ReadNode.{listed_again};
    ghost use Rattle.rt_repair.specs.Repairing.{
      beginning,
      is_ended,
      IsUnended,
      decision_at,
      create_write,
      abandon_write,
      ideal_write,
      added_entries,
      set_by,
      set_entries,
    };
    ghost use Rattle.rt_repair.specs.RepairSteps.{
      Steps,
      Gives,
      Written,
      Does,
      Creates,
      Sets,
      MayWriteAt,
      MayDo,
      MaySet,
      after_list,
      after_read,
      fails,
      abandoned,
      ideal_set,
    };

    /// A repair of a partition that has read nothing yet, of a cluster within the limits. Fails only where memory is
    /// refused.
    pub fn begin(alloc: Global, partition: Partition, setup: &Setup) -> Result<Self, AllocError>
        requires { IsSetup setup.now }
        ensures { IfOk result (λ repair. repair ≡ beginning partition setup.now) }
    {
        let table = setup.table.name.copy(alloc)?;
        let instances = rt_assign::replicas(
            alloc,
            partition,
            setup.table.replication,
            setup.servers,
        )?;
        Ok(Repair {
            partition,
            table,
            instances,
            grace: setup.grace,
            stage: RepairStage::Listing,
        })
    }

    /// Whether the repair has ended.
    pub fn ended(&self) -> bool
        ensures { result ≡ is_ended self.now.stage }
    {
        matches!(self.stage, RepairStage::Ended)
    }

    /// The number of entries of the ideal state that `step` at `now` would set; none where it would set none. Takes
    /// no memory.
    pub fn sets(&self, now: Moment) -> Option<u64>
        ensures { result ≡ set_entries self.now now }
    {
        match &self.stage {
            RepairStage::Writing { last, ideal, .. } => self.set_count(now, last, ideal),
            RepairStage::Listing => None,
            RepairStage::Reading { .. } => None,
            RepairStage::Ended => None,
        }
    }

    /// The next step, at `now`, which is no later than the end of the year 9999: the list, then the ideal state, then
    /// what is decided by these. It needs a repair that has not ended. Fails only where memory is refused; the repair
    /// is then as before, and nothing was written.
    pub fn step<S: Store>(
        &mut self,
        alloc: Global,
        now: Moment,
        store: &mut S,
    ) -> Result<RepairStep, AllocError>
        requires unended { IsUnended self.old.stage }
        requires moment { now.0 ≤ LAST_MOMENT }
        requires ready { (s : Starting) × IsRepair s (S.meaning store.old).seen self.old }
        ensures step { Steps (S.meaning store.old) (S.meaning store.new) self.old now self.new result }
        ensures ready { (s : Starting) → IsRepair s (S.meaning store.old).seen self.old
            → IsRepair s (S.meaning store.new).seen self.new }
        ensures failed { IfOk result (λ did. did ≡ Failed
            → (S.meaning store.old).faults < (S.meaning store.new).faults) }
    {
        self.take_step(alloc, now, store)
    }

    #[tactic(auto, using(crate::proofs::RunningOut::list_ran_out, crate::proofs::RunningOut::read_ran_out))]
    fn take_step<S: Store>(
        &mut self,
        alloc: Global,
        now: Moment,
        store: &mut S,
    ) -> Result<RepairStep, AllocError>
        requires unended { IsUnended self.old.stage }
        requires named { IsTableName self.old.table }
        requires moment { now.0 ≤ LAST_MOMENT }
        requires may { MayWriteAt (S.meaning store.old).seen self.old now self.old.stage }
        ensures { Steps (S.meaning store.old) (S.meaning store.new) self.old now self.new result }
    {
        match &self.stage {
            RepairStage::Listing => {
                let answer = store.list(alloc, self.partition);
                self.listed(answer)
            }
            RepairStage::Reading { .. } => {
                let answer = store.read(alloc, Key::Ideal);
                self.read(answer)
            }
            RepairStage::Writing {
                last,
                follows_done,
                ideal,
            } => {
                let did = self.write(alloc, now, last, *follows_done, ideal, store)?;
                self.stage = RepairStage::Ended;
                Ok(did)
            }
            RepairStage::Ended => unreachable!(),
        }
    }

    /// Keeps what was listed.
    fn listed(
        &mut self,
        answer: Result<Items<Listed>, StoreRefused>,
    ) -> Result<RepairStep, AllocError>
        ensures { Gives self.old (after_list self.old answer) self.new result }
    {
        match answer {
            Ok(nodes) => {
                let (last, follows_done) = last_node(self.partition, nodes);
                self.stage = RepairStage::Reading { last, follows_done };
                Ok(RepairStep::Listed)
            }
            Err(refused) => self.fail(refused),
        }
    }

    /// Keeps the ideal state that was read.
    fn read(&mut self, answer: Result<Seen, StoreRefused>) -> Result<RepairStep, AllocError>
        ensures { Gives self.old (after_read self.old answer) self.new result }
    {
        match answer {
            Ok(ideal) => {
                let stage = mem::replace(&mut self.stage, RepairStage::Ended);
                self.stage = with_ideal(stage, ideal);
                Ok(RepairStep::IdealRead)
            }
            Err(refused) => self.fail(refused),
        }
    }

    /// Ends the repair after a fault, but not after want of memory.
    fn fail(&mut self, refused: StoreRefused) -> Result<RepairStep, AllocError>
        ensures { Gives self.old (fails self.old refused) self.new result }
    {
        if refused == StoreRefused::Memory {
            return Err(AllocError);
        }
        self.stage = RepairStage::Ended;
        Ok(RepairStep::Failed)
    }

    /// What is decided over the last node and the entries that were read.
    fn decision(&self, last: &Option<ReadNode>, entries: &[IdealEntry], now: Moment) -> Decision
        ensures { result ≡ decide_last self.now.partition entries.now now self.now.grace (listed_again last.now) }
    {
        let Some(last) = last else {
            return Decision::Create(Sequence(0), Offset(0));
        };
        match &last.seen.node {
            Node::Meta(meta) => {
                decide_on(
                    last.sequence,
                    meta,
                    self.partition,
                    entries,
                    now,
                    self.grace,
                )
            }
            Node::Ideal(_) => Decision::Create(Sequence(0), Offset(0)),
            Node::Boot => Decision::Create(Sequence(0), Offset(0)),
            Node::Gone => Decision::Create(Sequence(0), Offset(0)),
        }
    }

    /// The number of entries that the write at `now` would set.
    #[tactic(auto, using(crate::proofs::Counting::set_count))]
    fn set_count(&self, now: Moment, last: &Option<ReadNode>, ideal: &Seen) -> Option<u64>
        ensures { (follows : Bool) → result ≡ set_by self.now follows ideal.now (decision_at self.now now last.now ideal.now) }
    {
        let entries = entries_of(&ideal.node);
        match self.decision(last, entries, now) {
            Decision::AddToIdeal(sequence) => {
                if comes_next(entries, self.partition, sequence) {
                    Some(entries.len() as u64 + self.instances.as_slice().len() as u64)
                } else {
                    None
                }
            }
            Decision::Nothing => None,
            Decision::Create(_, _) => None,
            Decision::Abandon(_) => None,
        }
    }

    /// Carries out what is decided, by one write at most.
    fn write<S: Store>(
        &self,
        alloc: Global,
        now: Moment,
        last: &Option<ReadNode>,
        follows_done: bool,
        ideal: &Seen,
        store: &mut S,
    ) -> Result<RepairStep, AllocError>
        requires named { IsTableName self.now.table }
        requires moment { now.0 ≤ LAST_MOMENT }
        requires may { MayDo (S.meaning store.old).seen self.now now last.now follows_done ideal.now
            (decision_at self.now now last.now ideal.now) }
        ensures { Written (S.meaning store.old) (S.meaning store.new) (λ did.
            Does (S.meaning store.old) (S.meaning store.new) self.now now last.now follows_done ideal.now did
            (decision_at self.now now last.now ideal.now)) result }
    {
        match self.decision(last, entries_of(&ideal.node), now) {
            Decision::Nothing => Ok(RepairStep::Nothing),
            Decision::Create(sequence, start) => {
                self.create(alloc, now, sequence, start, last, store)
            }
            Decision::AddToIdeal(sequence) => {
                self.add_to_ideal(alloc, sequence, follows_done, ideal, store)
            }
            Decision::Abandon(sequence) => self.abandon(alloc, now, sequence, last, store),
        }
    }

    /// Creates a segment after the last one that was listed, or as the first one.
    #[tactic(auto, using(crate::proofs::RunningOut::create_ran_out))]
    fn create<S: Store>(
        &self,
        alloc: Global,
        now: Moment,
        sequence: Sequence,
        start: Offset,
        last: &Option<ReadNode>,
        store: &mut S,
    ) -> Result<RepairStep, AllocError>
        requires named { IsTableName self.now.table }
        requires moment { now.0 ≤ LAST_MOMENT }
        requires may { IsLawful (S.meaning store.old).seen (create_write self.now now sequence start last.now) }
        ensures { Written (S.meaning store.old) (S.meaning store.new) (λ did.
            Creates (S.meaning store.old) (S.meaning store.new) self.now now sequence start last.now did) result }
    {
        let key = Key::Meta(self.partition, sequence);
        let table = self.table.as_str();
        let node = Node::Meta(first(alloc, table, self.partition, sequence, start, now)?);
        match last {
            None => {
                let answer = store.create(alloc, key, &node);
                created(sequence, last, answer)
            }
            Some(prior) => {
                let answer = store.create_after(alloc, key, &node, &prior.seen);
                created(sequence, last, answer)
            }
        }
    }

    /// Gives the last segment up.
    #[tactic(auto, using(crate::proofs::RunningOut::abandon_ran_out))]
    fn abandon<S: Store>(
        &self,
        alloc: Global,
        now: Moment,
        sequence: Sequence,
        last: &Option<ReadNode>,
        store: &mut S,
    ) -> Result<RepairStep, AllocError>
        requires may { MaySet (S.meaning store.old).seen (abandon_write now last.now) }
        ensures { Written (S.meaning store.old) (S.meaning store.new) (λ did.
            Sets (S.meaning store.old) (S.meaning store.new) (abandoned sequence) (abandon_write now last.now) did) result }
    {
        let Some(last) = last else {
            return Ok(RepairStep::Nothing);
        };
        match &last.seen.node {
            Node::Meta(meta) => {
                let node = Node::Meta(abandoned_of(alloc, meta, now)?);
                let answer = store.compare_and_set(alloc, &last.seen, &node);
                abandoned(sequence, answer)
            }
            Node::Ideal(_) => Ok(RepairStep::Nothing),
            Node::Boot => Ok(RepairStep::Nothing),
            Node::Gone => Ok(RepairStep::Nothing),
        }
    }

    /// Gives the last segment its entries, unless that would change nothing.
    #[tactic(auto, using(crate::proofs::RunningOut::set_ran_out))]
    fn add_to_ideal<S: Store>(
        &self,
        alloc: Global,
        sequence: Sequence,
        follows_done: bool,
        ideal: &Seen,
        store: &mut S,
    ) -> Result<RepairStep, AllocError>
        requires may { MaySet (S.meaning store.old).seen (ideal_write self.now sequence follows_done ideal.now) }
        ensures { Written (S.meaning store.old) (S.meaning store.new) (λ did.
            Sets (S.meaning store.old) (S.meaning store.new) ideal_set (ideal_write self.now sequence follows_done ideal.now) did) result }
    {
        if !comes_next(entries_of(&ideal.node), self.partition, sequence) {
            return Ok(RepairStep::Nothing);
        }
        let node = Node::Ideal(self.with_entries(alloc, sequence, follows_done, &ideal.node)?);
        let answer = store.compare_and_set(alloc, ideal, &node);
        ideal_set(answer)
    }

    /// The ideal state with the entries of a segment: by the commit of the one before it, where that is Done.
    fn with_entries(
        &self,
        alloc: Global,
        sequence: Sequence,
        follows_done: bool,
        ideal: &Node,
    ) -> Result<IdealState, AllocError>
        ensures { IfOk result (λ state.
            state.entries ≡ added_entries self.now sequence follows_done (entries_by ideal.now)) }
    {
        let empty = IdealState {
            entries: Items::new(alloc),
        };
        let state = state_of(ideal, &empty);
        let instances = self.instances.as_slice();
        if follows_done && sequence.0 > 0 {
            let before = Sequence(sequence.0 - 1);
            commit_step(alloc, state, self.partition, before, instances)
        } else {
            add_consuming(alloc, state, self.partition, sequence, instances)
        }
    }
}

/// The ideal state beside what was listed.
fn with_ideal(stage: RepairStage, ideal: Seen) -> RepairStage
    ensures { result ≡ with_ideal stage ideal }
{
    match stage {
        RepairStage::Reading { last, follows_done } => RepairStage::Writing {
            last,
            follows_done,
            ideal,
        },
        RepairStage::Listing => RepairStage::Ended,
        RepairStage::Writing { .. } => RepairStage::Ended,
        RepairStage::Ended => RepairStage::Ended,
    }
}

/// What the answer to the creation of a segment tells.
fn created(
    sequence: Sequence,
    last: &Option<ReadNode>,
    answer: Result<(), StoreRefused>,
) -> Result<RepairStep, AllocError>
    ensures { Tells (created sequence last.now answer) result }
{
    match answer {
        Ok(()) => Ok(RepairStep::Created(sequence)),
        Err(StoreRefused::NoNode) => match last {
            Some(last) => Ok(RepairStep::Gone(last.sequence)),
            None => Ok(RepairStep::Failed),
        },
        Err(StoreRefused::Exists { .. }) => Ok(RepairStep::Exists(sequence)),
        Err(StoreRefused::VersionChanged { expected, found }) => {
            Ok(RepairStep::Changed { expected, found })
        }
        Err(StoreRefused::Failed) => Ok(RepairStep::Failed),
        Err(StoreRefused::Memory) => Err(AllocError),
    }
}

/// What the answer to the giving up of a segment tells.
fn abandoned(
    sequence: Sequence,
    answer: Result<u64, StoreRefused>,
) -> Result<RepairStep, AllocError>
    ensures { Tells (abandoned sequence answer) result }
{
    match answer {
        Ok(_) => Ok(RepairStep::Abandoned(sequence)),
        Err(StoreRefused::NoNode) => Ok(RepairStep::Gone(sequence)),
        Err(StoreRefused::Exists { .. }) => Ok(RepairStep::Failed),
        Err(StoreRefused::VersionChanged { expected, found }) => {
            Ok(RepairStep::Changed { expected, found })
        }
        Err(StoreRefused::Failed) => Ok(RepairStep::Failed),
        Err(StoreRefused::Memory) => Err(AllocError),
    }
}

/// What the answer to the set of the ideal state tells.
fn ideal_set(answer: Result<u64, StoreRefused>) -> Result<RepairStep, AllocError>
    ensures { Tells (ideal_set answer) result }
{
    match answer {
        Ok(version) => Ok(RepairStep::IdealSet(version)),
        Err(StoreRefused::NoNode) => Ok(RepairStep::Failed),
        Err(StoreRefused::Exists { .. }) => Ok(RepairStep::Failed),
        Err(StoreRefused::VersionChanged { expected, found }) => {
            Ok(RepairStep::Changed { expected, found })
        }
        Err(StoreRefused::Failed) => Ok(RepairStep::Failed),
        Err(StoreRefused::Memory) => Err(AllocError),
    }
}
