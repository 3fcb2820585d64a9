//! When the clock can be moved, a controller be told whether it leads, and a fault be planned.
ghost use Rattle.std.specs.Prelude.{◌≡◌};
ghost use Rattle.rt_state.specs.Clock.{tick_due, lead_due, fault_due, pass_due};

use crate::{Cost, State};
use rt_base::ControllerId;
use rt_events::Refusal;

impl State {
    /// What it costs to move the clock on by so many milliseconds, or why that can't happen now. Takes no memory.
    pub fn tick_due(&self, millis: u64) -> Result<Cost, Refusal>
        ensures { result ≡ tick_due self.now millis }
    {
        self.price(Cost::of_time(millis))
    }

    /// What it costs to tell a controller whether it leads, or why that can't happen now. Takes no memory.
    pub fn lead_due(&self, controller: ControllerId) -> Result<Cost, Refusal>
        ensures { result ≡ lead_due self.now controller }
    {
        self.find_controller(controller)?;
        self.price(Cost::none())
    }

    /// What it costs to plan a fault, or why that can't happen now. Takes no memory.
    pub fn fault_due(&self) -> Result<Cost, Refusal>
        ensures { result ≡ fault_due self.now }
    {
        self.price(Cost::none())
    }

    /// Why a line that is no event can't be passed over now, if it can't.
    pub fn pass_due(&self) -> Result<Cost, Refusal>
        ensures { result ≡ pass_due self.now }
    {
        self.price(Cost::none())
    }
}
