ghost use Rattle.std.specs.Prelude.{◌≡◌, ◌<◌, ◌≤◌, ◌-◌, ◌^◌, length, true, false, not, IsTrue};
ghost use Rattle.rt_base.specs.declared.limits.TheConstants.{LAST_MOMENT};
ghost use Rattle.rt_ground.specs.Callers.{new_caller};
ghost use Rattle.rt_live_controller.specs.Repairing.{is_free};
ghost use Rattle.rt_live_names.specs.Fronts.{repairer_caller};
ghost use Rattle.rt_model.specs.Setup.{IsSetup};
ghost use Rattle.rt_store.specs.Contents.{starting_of};

use crate::RepairerDid;
use rt_base::{Clock, Moment, Partition};
use rt_diary::Diary;
use rt_ground::{Caller, Naming};
use rt_live_names::{Cluster, moment};
use rt_model::Setup;
use rt_repair::{Repair, RepairStep};
use std::alloc::{AllocError, Global};
use std::marker::{Model, PhantomData};
use std::sync::Wait;

/// The repair that is under way, if one is, the repairer's caller, and all that it did.
#[derive(Drop)]
pub struct Mending<R, J: Naming, K: Cluster> {
    pub(crate) repair: Option<Repair>,
    pub(crate) caller: Caller<R, J>,
    pub(crate) diary: Diary<RepairerDid>,
    setup: Setup,
    cluster: PhantomData<K>,
}

impl<R, J: Naming, K: Cluster> Model for Mending<R, J, K> {
    ghost use Rattle.rt_live_controller.specs.Repairing.{RepairerActs};

    ghost Value = { RepairerActs };

    ghost use Rattle.rt_live_controller.specs.Repairing.{IsMendingOf};
    ghost use Rattle.rt_live_names.specs.Fronts.{fronts};

    ghost view = { λ m. record {
      repair = m.repair;
      fronts = fronts m.caller.store m.caller.deep m.caller.stream;
      did = m.diary;
    } };

    ghost invariant = { λ m. IsMendingOf K.names J.starting m.setup (record {
      repair = m.repair;
      fronts = fronts m.caller.store m.caller.deep m.caller.stream;
      did = m.diary;
    }) };
}

impl<R: Copy, J: Naming, K: Cluster> Mending<R, J, K> {
    /// A repairer that has done nothing yet.
    pub(crate) fn make(
        alloc: Global,
        setup: Setup,
        caller: Caller<R, J>,
    ) -> Result<Self, AllocError>
        requires setup { (setup ≡ K.names.setup) × IsSetup setup }
        requires starting { starting_of setup ≡ J.starting }
        requires caller { caller ≡ new_caller J.names (repairer_caller K.names.setup) }
    {
        Ok(Mending {
            repair: None,
            caller,
            diary: Diary::new(alloc)?,
            setup,
            cluster: PhantomData,
        })
    }

    /// Whether it can do one thing more: what it did can still be counted.
    pub(crate) fn has_room(&self) -> bool
        ensures { IsTrue result → (length self.now.did < 2 ^ 64 - 1) }
    {
        self.diary.has_room()
    }

    /// Whether a repair is under way.
    pub(crate) fn is_under_way(&self) -> bool
        ensures { result ≡ not (is_free self.now.repair) }
    {
        match &self.repair {
            Some(repair) => !repair.ended(),
            None => false,
        }
    }

    /// The number of partitions.
    pub(crate) fn partitions(&self) -> u32
        ensures number { result ≡ K.names.setup.partitions }
        ensures some { 1 ≤ result }
    {
        self.setup.partitions
    }

    /// The first moment of the cluster.
    pub(crate) fn start(&self) -> Moment
        ensures { result.0 ≤ LAST_MOMENT }
    {
        self.setup.start
    }

    /// Begins the repair of a partition in place of one that has ended. Fails only where memory is refused.
    pub(crate) fn begin(&mut self, alloc: Global, partition: Partition) -> Result<(), AllocError>
        requires room { length self.old.did < 2 ^ 64 - 1 }
        requires free { is_free self.old.repair ≡ true }
        requires within { partition.0 < K.names.setup.partitions }
    {
        self.repair = Some(Repair::begin(alloc, partition, &self.setup)?);
        self.diary.note(&RepairerDid::Began { partition });
        Ok(())
    }
}

impl<R: Wait + Copy, J: Naming, K: Cluster> Mending<R, J, K> {
    /// Makes the next step of the repair that is under way. Fails only where memory is refused.
    pub(crate) fn step(&mut self, alloc: Global, now: Moment) -> Result<RepairStep, AllocError>
        requires room { length self.old.did < 2 ^ 64 - 1 }
        requires unended { is_free self.old.repair ≡ false }
        requires moment { now.0 ≤ LAST_MOMENT }
    {
        let Some(repair) = &mut self.repair else {
            unreachable!()
        };
        let result = repair.step(alloc, now, &mut self.caller.store);
        let told = self.caller.store.front().told();
        self.diary.note(&RepairerDid::Stepped { now, result, told });
        result
    }
}
