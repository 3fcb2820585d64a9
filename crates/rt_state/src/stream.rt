//! When a message can be appended.
ghost use Rattle.std.specs.Prelude.{◌≡◌};
ghost use Rattle.rt_state.specs.Stream.{produce_due};

use crate::{Cost, State};
use rt_base::Partition;
use rt_events::Refusal;
use rt_lists::Bytes;

impl State {
    /// What it costs to append a message to a partition, or why that can't happen now. Takes no memory.
    pub fn produce_due(&self, partition: Partition, message: &Bytes) -> Result<Cost, Refusal>
        ensures { result ≡ produce_due self.now partition message.now }
    {
        if !self.has_partition(partition) {
            return Err(Refusal::NoSuchNode);
        }
        self.price(Cost::of_message(message.len()))
    }
}
