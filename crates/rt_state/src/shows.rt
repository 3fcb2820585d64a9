//! When nodes of the store can be looked at.
ghost use Rattle.std.specs.Prelude.{◌≡◌};
ghost use Rattle.rt_state.specs.Shows.{show_meta_due, show_ideal_due};

use crate::{Cost, State};
use rt_base::Partition;
use rt_events::Refusal;

impl State {
    /// What it costs to look at the metadata of a segment, or why that can't happen now. Takes no memory.
    pub fn show_meta_due(&self, partition: Partition) -> Result<Cost, Refusal>
        ensures { result ≡ show_meta_due self.now partition }
    {
        if !self.has_partition(partition) {
            return Err(Refusal::NoSuchNode);
        }
        self.price(Cost::none())
    }

    /// What it costs to look at the ideal state, or why that can't happen now. Takes no memory.
    pub fn show_ideal_due(&self) -> Result<Cost, Refusal>
        ensures { result ≡ show_ideal_due self.now }
    {
        self.price(Cost::none())
    }
}
