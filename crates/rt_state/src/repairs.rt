//! When a controller can do something for a partition on its own: the repair, and the retiring of old segments.
ghost use Rattle.std.specs.Prelude.{◌≡◌, option_map};
ghost use Rattle.rt_state.specs.Repairs.{chore_due, repair_by, retain_by, upkeep_at, believes_at, find_upkeep, repair_in, retirement_in};

use crate::{Cost, State};
use rt_base::{ControllerId, Partition};
use rt_events::Refusal;
use rt_nodes::{Chore, Upkeep};
use rt_repair::{Repair, Retire};

impl State {
    /// What a controller has under way for a partition.
    fn upkeep(&self, controller: ControllerId, partition: Partition) -> Option<&Upkeep>
        ensures { option_map (λ upkeep. upkeep.now) result ≡ upkeep_at self.now controller partition }
    {
        match self.controllers.get(controller.0 as usize) {
            Some(node) => node.upkeep.get(partition.0 as usize),
            None => None,
        }
    }

    fn believes(&self, controller: ControllerId) -> bool
        ensures { result ≡ believes_at self.now controller }
    {
        match self.controllers.get(controller.0 as usize) {
            Some(node) => node.controller.believes(),
            None => false,
        }
    }

    /// A controller and a partition that are there, the controller being up.
    fn find_upkeep(&self, controller: ControllerId, partition: Partition) -> Result<(), Refusal>
        ensures { result ≡ find_upkeep self.now controller partition }
    {
        if !(self.has_controller(controller) && self.has_partition(partition)) {
            return Err(Refusal::NoSuchNode);
        }
        if !self.is_controller_up(controller) {
            return Err(Refusal::NodeDown);
        }
        Ok(())
    }

    /// The repair of a partition that a controller has under way.
    fn repair_of(&self, controller: ControllerId, partition: Partition) -> Option<&Repair>
        ensures { option_map (λ repair. repair.now) result ≡ repair_in (upkeep_at self.now controller partition) }
    {
        match self.upkeep(controller, partition) {
            Some(upkeep) => upkeep.repair.as_ref(),
            None => None,
        }
    }

    /// The retirement of a partition that a controller has under way.
    fn retirement_of(&self, controller: ControllerId, partition: Partition) -> Option<&Retire>
        ensures { option_map (λ retirement. retirement.now) result ≡ retirement_in (upkeep_at self.now controller partition) }
    {
        match self.upkeep(controller, partition) {
            Some(upkeep) => upkeep.retirement.as_ref(),
            None => None,
        }
    }

    /// What it costs that a controller makes the next step of a chore of a partition, or why that can't happen now. Takes no
    /// memory.
    pub fn chore_due(
        &self,
        controller: ControllerId,
        partition: Partition,
        chore: Chore,
    ) -> Result<Cost, Refusal>
        ensures { result ≡ chore_due self.now controller partition chore }
    {
        self.find_upkeep(controller, partition)?;
        match chore {
            Chore::Repair => self.repair_due(controller, partition),
            Chore::Retire => self.retain_due(controller, partition),
        }
    }

    fn repair_due(&self, controller: ControllerId, partition: Partition) -> Result<Cost, Refusal>
        ensures { result ≡ repair_by self.now controller (repair_in (upkeep_at self.now controller partition)) }
    {
        match self.repair_of(controller, partition) {
            Some(repair) => self.price(Cost::of_set(repair.sets(self.moment))),
            None => {
                if !self.believes(controller) {
                    return Err(Refusal::NothingToDo);
                }
                self.price(Cost::none())
            }
        }
    }

    fn retain_due(&self, controller: ControllerId, partition: Partition) -> Result<Cost, Refusal>
        ensures { result ≡ retain_by self.now controller (retirement_in (upkeep_at self.now controller partition)) }
    {
        match self.retirement_of(controller, partition) {
            Some(retirement) => self.price(Cost::of_set(retirement.sets(self.moment))),
            None => {
                if !(self.setup.retention.is_some() && self.believes(controller)) {
                    return Err(Refusal::NothingToDo);
                }
                self.price(Cost::none())
            }
        }
    }
}
