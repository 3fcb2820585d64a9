//! When the next step of a job can be made.
ghost use Rattle.std.specs.Prelude.{◌≡◌};
ghost use Rattle.rt_state.specs.Jobs.{job_due, sets_of_job, has_job};

use crate::{Cost, State};
use rt_base::ControllerId;
use rt_events::Refusal;

impl State {
    /// What it costs that a controller makes the next step of a job, or why that can't happen now. Takes no memory.
    pub fn job_due(&self, controller: ControllerId, job: u64) -> Result<Cost, Refusal>
        ensures { result ≡ job_due self.now controller job }
    {
        if !self.has_controller(controller) {
            return Err(Refusal::NoSuchNode);
        }
        if !self.has_job(controller, job) {
            return Err(Refusal::NoSuchMessage);
        }
        if !self.is_controller_up(controller) {
            return Err(Refusal::NodeDown);
        }
        self.price(Cost::of_set(self.job_sets(controller, job)))
    }

    fn has_job(&self, controller: ControllerId, job: u64) -> bool
        ensures { result ≡ has_job self.now controller job }
    {
        match self.controllers.get(controller.0 as usize) {
            Some(node) => node.controller.is_open(job),
            None => false,
        }
    }

    fn job_sets(&self, controller: ControllerId, job: u64) -> Option<u64>
        ensures { result ≡ sets_of_job self.now controller job }
    {
        match self.controllers.get(controller.0 as usize) {
            Some(node) => node.controller.sets(job),
            None => None,
        }
    }
}
