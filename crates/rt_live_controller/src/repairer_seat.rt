ghost use Rattle.std.specs.Prelude.{◌≡◌, ◌<◌, ◌≤◌, ◌-◌, ◌^◌, length, true, false};
ghost use Rattle.rt_base.specs.declared.limits.TheConstants.{LAST_MOMENT};
ghost use Rattle.rt_ground.specs.Callers.{new_caller};
ghost use Rattle.rt_live_controller.specs.Repairing.{IsRepairerEnded, is_free};
ghost use Rattle.rt_live_names.specs.Fronts.{fronts, repairer_caller};
ghost use Rattle.rt_model.specs.Setup.{IsSetup};
ghost use Rattle.rt_store.specs.Contents.{starting_of};

use crate::RepairerEnded;
use crate::mending::Mending;
use rt_base::{Clock, Moment, Partition};
use rt_ground::{Caller, Naming};
use rt_lists::Copied;
use rt_live_names::{Cluster, Ends, moment};
use rt_model::Setup;
use rt_repair::RepairStep;
use std::alloc::{AllocError, Global};
use std::marker::Model;
use std::sync::Wait;

/// The repairer's node: it repairs one partition after the other, for ever.
#[derive(Drop)]
pub struct RepairerSeat<R, J: Naming, K: Cluster> {
    mending: Mending<R, J, K>,
    /// The partition of the next repair.
    next: u32,
    /// The next step of the repair that is under way decides and writes.
    decides: bool,
}

impl<R: Copy, J: Naming, K: Cluster> RepairerSeat<R, J, K> {
    /// The repairer's node, with no repair under way. Fails only where memory is refused.
    pub fn make(alloc: Global, setup: &Setup, caller: Caller<R, J>) -> Result<Self, AllocError>
        requires setup { (setup.now ≡ K.names.setup) × IsSetup setup.now }
        requires starting { starting_of setup.now ≡ J.starting }
        requires caller { caller ≡ new_caller J.names (repairer_caller K.names.setup) }
    {
        let setup = setup.copied(alloc)?;
        Ok(RepairerSeat {
            mending: Mending::make(alloc, setup, caller)?,
            next: 0,
            decides: false,
        })
    }

    /// What it is when the run has ended.
    pub fn into_ended(self) -> RepairerEnded<R, J>
        ensures { IsRepairerEnded K.names (fronts result.caller.store result.caller.deep result.caller.stream)
            result.repair result.diary }
    {
        let Mending {
            repair,
            caller,
            diary,
            ..
        } = self.mending;
        RepairerEnded {
            repair,
            caller,
            diary,
        }
    }
}

impl<R: Wait + Copy, J: Naming, K: Cluster> RepairerSeat<R, J, K> {
    /// One turn: the next step of the repair that is under way, or else the beginning of that of the next partition.
    /// True where the step wrote something.
    pub fn turn<C: Clock>(&mut self, alloc: Global, clock: &C, ends: &Ends) -> bool {
        if !self.mending.has_room() {
            return false;
        }
        if self.mending.is_under_way() {
            self.step(alloc, clock, ends)
        } else {
            self.begin(alloc, ends)
        }
    }

    // The next step of the repair that is under way.
    fn step<C: Clock>(&mut self, alloc: Global, clock: &C, ends: &Ends) -> bool
        requires room { length self.old.mending.did < 2 ^ 64 - 1 }
        requires unended { is_free self.old.mending.repair ≡ false }
    {
        let now = self.moment(clock);
        match self.mending.step(alloc, now) {
            Ok(step) => {
                self.decides = step == RepairStep::IdealRead;
                wrote(step)
            }
            Err(_) => {
                ends.refuse();
                false
            }
        }
    }

    // The moment of the next step. The clock is read for one that decides.
    fn moment<C: Clock>(&self, clock: &C) -> Moment
        ensures { result.0 ≤ LAST_MOMENT }
    {
        let start = self.mending.start();
        if self.decides {
            moment(start, clock)
        } else {
            start
        }
    }

    // The repair of the next partition, after the last one that of the first.
    fn begin(&mut self, alloc: Global, ends: &Ends) -> bool
        requires room { length self.old.mending.did < 2 ^ 64 - 1 }
        requires free { is_free self.old.mending.repair ≡ true }
    {
        let partition = if self.next < self.mending.partitions() {
            self.next
        } else {
            0
        };
        match self.mending.begin(alloc, Partition(partition)) {
            Ok(()) => {
                self.next = partition + 1;
                self.decides = false;
            }
            Err(_) => ends.refuse(),
        }
        false
    }
}

// Whether a step wrote something.
fn wrote(step: RepairStep) -> bool {
    match step {
        RepairStep::Created(_) => true,
        RepairStep::Abandoned(_) => true,
        RepairStep::IdealSet(_) => true,
        _other => false,
    }
}
