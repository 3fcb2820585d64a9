//! When nodes can crash and restart.
ghost use Rattle.std.specs.Prelude.{◌≡◌};
ghost use Rattle.rt_state.specs.Lives.{crash_server_due, crash_controller_due, restart_server_due, restart_controller_due};

use crate::{Cost, State};
use rt_base::{ControllerId, Instance};
use rt_events::Refusal;

impl State {
    /// What it costs that a server crashes, or why that can't happen now. Takes no memory.
    pub fn crash_server_due(&self, instance: Instance) -> Result<Cost, Refusal>
        ensures { result ≡ crash_server_due self.now instance }
    {
        if !self.has_server(instance) {
            return Err(Refusal::NoSuchNode);
        }
        if !self.is_server_up(instance) {
            return Err(Refusal::NodeDown);
        }
        self.price(Cost::none())
    }

    /// What it costs that a controller crashes, or why that can't happen now. Takes no memory.
    pub fn crash_controller_due(&self, controller: ControllerId) -> Result<Cost, Refusal>
        ensures { result ≡ crash_controller_due self.now controller }
    {
        self.find_controller(controller)?;
        self.price(Cost::none())
    }

    /// What it costs that a server restarts, or why that can't happen now. Takes no memory.
    pub fn restart_server_due(&self, instance: Instance) -> Result<Cost, Refusal>
        ensures { result ≡ restart_server_due self.now instance }
    {
        if !self.has_server(instance) {
            return Err(Refusal::NoSuchNode);
        }
        if self.is_server_up(instance) {
            return Err(Refusal::NothingToDo);
        }
        self.price(Cost::none())
    }

    /// What it costs that a controller restarts, or why that can't happen now. Takes no memory.
    pub fn restart_controller_due(&self, controller: ControllerId) -> Result<Cost, Refusal>
        ensures { result ≡ restart_controller_due self.now controller }
    {
        if !self.has_controller(controller) {
            return Err(Refusal::NoSuchNode);
        }
        if self.is_controller_up(controller) {
            return Err(Refusal::NothingToDo);
        }
        self.price(Cost::none())
    }
}
