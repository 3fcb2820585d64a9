ghost use Rattle.std.specs.Prelude.{◌≡◌, ◌≤◌, IsFalse, None, Some, Ok};
ghost use Rattle.rt_dryrun.specs.Rehearsing.{Plans, PlansBy, StepsOn, after_loaded, loaded_by, loaded_in, loaded_of, planned_as, started};

use crate::going::Going;
use crate::nodes::has_partition;
use crate::planning::{capped, is_fit, moves_of};
use crate::told::told;
use crate::{Planned, Stepped};
use rt_base::{Instance, Partition, Sequence};
use rt_events::Refusal;
use rt_lists::Items;
use rt_model::IdealState;
use rt_rebalance::{plan, target};
use rt_world::World;
use std::alloc::Global;
use std::marker::Model;

/// The rehearsal of a rebalance: the plan that is gone through, once there is one.
#[derive(Drop)]
pub struct Rehearsing {
    going: Option<Going>,
}

impl Model for Rehearsing {
    ghost use Rattle.std.specs.Prelude.{Option};
    ghost use Rattle.rt_dryrun.specs.Rehearsing.{Going as Gone};

    ghost Value = { Option Gone };

    ghost view = { λ a. a.going };
}

impl Rehearsing {
    /// No plan yet.
    pub fn make() -> Rehearsing
        ensures { result ≡ None }
    {
        Rehearsing { going: None }
    }

    /// Plans how the segments of a world would move to a number of servers, so that of each segment that moves at least
    /// `keep` instances stay in each step, and begins to rehearse that. It is NothingToDo for fewer servers than a segment
    /// has replicas, and for more than there can be. Where there is no plan, an earlier one stays.
    pub fn plan(
        &mut self,
        alloc: Global,
        world: &World,
        servers: u64,
        keep: u64,
    ) -> Result<Planned, Refusal>
        requires { IsFalse world.now.spent }
        ensures { Plans world.now.state servers keep self.old self.new result }
    {
        if !is_fit(world, servers) {
            return Err(Refusal::NothingToDo);
        }
        self.plan_for(alloc, world, servers as u32, capped(keep))
    }

    /// Plans for a number of servers that is fit.
    fn plan_for(
        &mut self,
        alloc: Global,
        world: &World,
        servers: u32,
        keep: u32,
    ) -> Result<Planned, Refusal>
        requires unspent { IsFalse world.now.spent }
        requires enough { world.now.state.setup.table.replication ≤ servers }
        ensures { PlansBy world.now.state servers keep self.old self.new result }
    {
        let current = world.ideal();
        let target = target(alloc, current, world.setup().table.replication, servers)?;
        match plan(alloc, current, &target, keep) {
            Ok(states) => {
                let moves = moves_of(alloc, current, target.entries.as_slice())?;
                Ok(self.begin(alloc, servers, states, moves))
            }
            Err(refused) => Ok(Planned::Refused(told(refused)?)),
        }
    }

    /// Begins to go through a plan with so many moves.
    fn begin(
        &mut self,
        alloc: Global,
        servers: u32,
        states: Items<IdealState>,
        moves: u64,
    ) -> Planned
        ensures told { result ≡ planned_as moves (Ok states) }
        ensures going { self.new ≡ Some (started servers states) }
    {
        let going = Going::start(alloc, servers, states);
        let steps = going.steps();
        self.going = Some(going);
        Planned::Plan { steps, moves }
    }

    /// An instance has loaded a segment; it is answered whether it is ONLINE there in the present state. NoSuchNode where
    /// the partition, or the instance among the servers of the plan, isn't below its count; NothingToDo without a plan.
    pub fn loaded(
        &mut self,
        world: &World,
        instance: Instance,
        partition: Partition,
        sequence: Sequence,
    ) -> Result<bool, Refusal>
        ensures answer { result ≡ loaded_of world.now.state self.old instance partition sequence }
        ensures after { self.new ≡ after_loaded world.now.state self.old instance partition sequence }
    {
        if !has_partition(world, partition) {
            return Err(Refusal::NoSuchNode);
        }
        self.load(instance, partition, sequence)
    }

    /// The same, for a partition that is there.
    fn load(
        &mut self,
        instance: Instance,
        partition: Partition,
        sequence: Sequence,
    ) -> Result<bool, Refusal>
        ensures answer { result ≡ loaded_by self.old instance partition sequence }
        ensures after { self.new ≡ loaded_in self.old instance partition sequence }
    {
        match &mut self.going {
            Some(going) => load_at(going, instance, partition, sequence),
            None => Err(Refusal::NothingToDo),
        }
    }

    /// Goes on to the next state of the plan. NothingToDo without a plan.
    pub fn step(&mut self) -> Result<Stepped, Refusal>
        ensures { StepsOn self.old self.new result }
    {
        match &mut self.going {
            Some(going) => going.step(),
            None => Err(Refusal::NothingToDo),
        }
    }
}

/// An instance of the servers of a plan has loaded a segment.
fn load_at(
    going: &mut Going,
    instance: Instance,
    partition: Partition,
    sequence: Sequence,
) -> Result<bool, Refusal>
    ensures answer { result ≡ loaded_by (Some going.old) instance partition sequence }
    ensures after { Some going.new ≡ loaded_in (Some going.old) instance partition sequence }
{
    if !going.has_server(instance) {
        return Err(Refusal::NoSuchNode);
    }
    Ok(going.load(instance, partition, sequence))
}
