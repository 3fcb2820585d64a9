ghost use Rattle.std.specs.Prelude.{◌≡◌, ◌<◌, ◌≤◌, IfOk, OnErr, IsNone, IsSome, Some, None, unwrap_or};
ghost use Rattle.rt_base.specs.declared.limits.TheConstants.{LAST_MOMENT};
ghost use Rattle.rt_model.specs.Setup.{IsSetup};
ghost use Rattle.rt_repair.specs.Repairing.{Repairing, beginning as repair_beginning};
ghost use Rattle.rt_repair.specs.Retirement.{Retirement, beginning as retire_beginning};
ghost use Rattle.rt_nodes.specs.Repairs.{begun, going_on, retiring, retiring_on, IsReadyFor, IsReadyRepair, IsReadyRetirement, UpkeepRepairs, UpkeepRetires, UpkeepSteps};

use crate::Chore;
use rt_base::{Moment, Partition};
use rt_events::Outcome;
use rt_model::Setup;
use rt_repair::{Repair, RepairStep, Retire, RetireStep};
use rt_store::MemoryStore;
use std::alloc::{AllocError, Global};
use std::mem;

/// What a controller has under way for a partition. It goes on across a crash of the controller.
#[derive(Drop)]
pub struct Upkeep {
    pub repair: Option<Repair>,
    pub retirement: Option<Retire>,
}

impl Upkeep {
    /// The next step of a chore, which begins where none is under way, and what came of it. Where memory is refused,
    /// nothing is done.
    pub(crate) fn step(
        &mut self,
        alloc: Global,
        chore: Chore,
        partition: Partition,
        setup: &Setup,
        now: Moment,
        store: &mut MemoryStore,
    ) -> Result<Outcome, AllocError>
        requires setup { IsSetup setup.now }
        requires within { partition.0 < setup.now.partitions }
        requires moment { now.0 ≤ LAST_MOMENT }
        requires ready { IsReadyFor chore setup.now store.old.writes partition self.old }
        ensures ok { IfOk result (UpkeepSteps chore setup.now partition now store.old store.new self.old self.new) }
        ensures err { OnErr result ((self.new ≡ self.old) × (store.new ≡ store.old)) }
    {
        match chore {
            Chore::Repair => {
                let did = self.step_repair(alloc, partition, setup, now, store)?;
                Ok(Outcome::Repaired(did))
            }
            Chore::Retire => {
                let did = self.step_retirement(alloc, partition, setup, now, store)?;
                Ok(Outcome::Retired(did))
            }
        }
    }

    /// The next step of the repair, which begins where none is under way.
    fn step_repair(
        &mut self,
        alloc: Global,
        partition: Partition,
        setup: &Setup,
        now: Moment,
        store: &mut MemoryStore,
    ) -> Result<RepairStep, AllocError>
        requires setup { IsSetup setup.now }
        requires moment { now.0 ≤ LAST_MOMENT }
        requires ready { IsReadyRepair store.old.writes (begun setup.now partition self.old.repair) }
        ensures ok { IfOk result (UpkeepRepairs setup.now partition now store.old store.new self.old self.new) }
        ensures err { OnErr result ((self.new ≡ self.old) × (store.new ≡ store.old)) }
    {
        let Some(repair) = &mut self.repair else {
            return self.begin_repair(alloc, partition, setup, now, store);
        };
        let did = repair.step(alloc, now, store)?;
        self.end_repair();
        Ok(did)
    }

    /// The first step of a repair.
    fn begin_repair(
        &mut self,
        alloc: Global,
        partition: Partition,
        setup: &Setup,
        now: Moment,
        store: &mut MemoryStore,
    ) -> Result<RepairStep, AllocError>
        requires none { self.old.repair ≡ None }
        requires setup { IsSetup setup.now }
        requires moment { now.0 ≤ LAST_MOMENT }
        requires ready { IsReadyRepair store.old.writes (repair_beginning partition setup.now) }
        ensures ok { IfOk result (UpkeepRepairs setup.now partition now store.old store.new self.old self.new) }
        ensures err { OnErr result ((self.new ≡ self.old) × (store.new ≡ store.old)) }
    {
        let mut repair = Repair::begin(alloc, partition, setup)?;
        let did = repair.step(alloc, now, store)?;
        drop(mem::replace(&mut self.repair, Some(repair)));
        self.end_repair();
        Ok(did)
    }

    /// Lets a repair go that has ended.
    fn end_repair(&mut self)
        requires { IsSome self.old.repair }
        ensures { (r : Repairing) → self.old.repair ≡ Some r → self.new ≡ record self.old { repair = going_on r } }
    {
        let Some(repair) = &self.repair else {
            unreachable!()
        };
        if repair.ended() {
            drop(self.repair.take());
        }
    }

    /// The next step of the retirement, which begins where none is under way.
    fn step_retirement(
        &mut self,
        alloc: Global,
        partition: Partition,
        setup: &Setup,
        now: Moment,
        store: &mut MemoryStore,
    ) -> Result<RetireStep, AllocError>
        requires within { partition.0 < setup.now.partitions }
        requires kept { IsNone self.old.retirement → IsSome setup.now.retention }
        requires ready { IsReadyRetirement store.old.writes (retiring setup.now partition self.old.retirement) }
        ensures ok { IfOk result (UpkeepRetires setup.now partition now store.old store.new self.old self.new) }
        ensures err { OnErr result ((self.new ≡ self.old) × (store.new ≡ store.old)) }
    {
        let Some(retirement) = &mut self.retirement else {
            return self.begin_retirement(alloc, partition, setup, now, store);
        };
        let did = retirement.step(alloc, now, store)?;
        self.end_retirement();
        Ok(did)
    }

    /// The first step of a retirement.
    fn begin_retirement(
        &mut self,
        alloc: Global,
        partition: Partition,
        setup: &Setup,
        now: Moment,
        store: &mut MemoryStore,
    ) -> Result<RetireStep, AllocError>
        requires none { self.old.retirement ≡ None }
        requires within { partition.0 < setup.now.partitions }
        requires kept { IsSome setup.now.retention }
        requires ready { IsReadyRetirement store.old.writes (retire_beginning partition (unwrap_or setup.now.retention 0)) }
        ensures ok { IfOk result (UpkeepRetires setup.now partition now store.old store.new self.old self.new) }
        ensures err { OnErr result ((self.new ≡ self.old) × (store.new ≡ store.old)) }
    {
        let mut retirement = Retire::begin(alloc, partition, setup)?;
        let did = retirement.step(alloc, now, store)?;
        drop(mem::replace(&mut self.retirement, Some(retirement)));
        self.end_retirement();
        Ok(did)
    }

    /// Lets a retirement go that has ended.
    fn end_retirement(&mut self)
        requires { IsSome self.old.retirement }
        ensures { (r : Retirement) → self.old.retirement ≡ Some r → self.new ≡ record self.old { retirement = retiring_on r } }
    {
        let Some(retirement) = &self.retirement else {
            unreachable!()
        };
        if retirement.ended() {
            drop(self.retirement.take());
        }
    }
}
