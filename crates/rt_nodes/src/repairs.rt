//! What a controller does for a partition on its own, in its list of what is under way.
ghost use Rattle.std.specs.Prelude.{◌≡◌, ◌<◌, ◌≤◌, length, slice_get, IfOk, OnErr, Some};
ghost use Rattle.rt_base.specs.declared.limits.TheConstants.{LAST_MOMENT};
ghost use Rattle.rt_model.specs.Setup.{IsSetup};
ghost use Rattle.rt_nodes.specs.declared.upkeep.Upkeep.{Upkeep as AnUpkeep};
ghost use Rattle.rt_nodes.specs.Repairs.{IsReadyFor, NodeKeeps};

use crate::{Chore, ControllerNode};
use rt_base::{Moment, Partition};
use rt_events::Outcome;
use rt_model::Setup;
use rt_store::MemoryStore;
use std::alloc::{AllocError, Global};

impl ControllerNode {
    /// The next step of a chore of a partition, which begins where none is under way, and what came of it. Fails only
    /// where memory is refused, with nothing done.
    pub fn keep(
        &mut self,
        alloc: Global,
        chore: Chore,
        partition: Partition,
        setup: &Setup,
        now: Moment,
        store: &mut MemoryStore,
    ) -> Result<Outcome, AllocError>
        requires setup { IsSetup setup.now }
        requires within { partition.0 < setup.now.partitions }
        requires moment { now.0 ≤ LAST_MOMENT }
        requires there { partition.0 < length self.old.upkeep }
        requires ready { (u : AnUpkeep) → slice_get self.old.upkeep partition.0 ≡ Some u
            → IsReadyFor chore setup.now store.old.writes partition u }
        ensures ok { IfOk result (NodeKeeps chore setup.now partition now store.old store.new self.old self.new) }
        ensures err { OnErr result ((self.new ≡ self.old) × (store.new ≡ store.old)) }
    {
        let upkeep = self.upkeep.at_mut(partition.0 as usize);
        upkeep.step(alloc, chore, partition, setup, now, store)
    }
}
