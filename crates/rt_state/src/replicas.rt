//! When the calls of a replica can be made, through its server.
ghost use Rattle.std.specs.Prelude.{◌≡◌};
ghost use Rattle.rt_state.specs.Replicas.{consume_due, force_due, stop_due, build_due};

use crate::{Cost, State};
use rt_base::{Instance, Partition, Sequence};
use rt_events::Refusal;
use rt_nodes::{stops, takes_messages};

impl State {
    /// What it costs that a replica takes at most `max` messages, or why that can't happen now. Takes no memory.
    pub fn consume_due(
        &self,
        instance: Instance,
        partition: Partition,
        sequence: Sequence,
        max: u32,
    ) -> Result<Cost, Refusal>
        ensures { result ≡ consume_due self.now instance partition sequence max }
    {
        self.find_server(instance, partition)?;
        let due = match self.replica(instance, partition, sequence) {
            Some(replica) => takes_messages(replica.state()) && max > 0,
            None => false,
        };
        if !due {
            return Err(Refusal::NothingToDo);
        }
        self.price(Cost::none())
    }

    /// What it costs to end a replica's consuming, or why that can't happen now. Takes no memory.
    pub fn force_due(
        &self,
        instance: Instance,
        partition: Partition,
        sequence: Sequence,
    ) -> Result<Cost, Refusal>
        ensures { result ≡ force_due self.now instance partition sequence }
    {
        self.find_server(instance, partition)?;
        let due = match self.replica(instance, partition, sequence) {
            Some(replica) => replica.force_due(),
            None => false,
        };
        if !due {
            return Err(Refusal::NothingToDo);
        }
        self.price(Cost::none())
    }

    /// What it costs that a replica drops its rows, or why that can't happen now. Takes no memory.
    pub fn stop_due(
        &self,
        instance: Instance,
        partition: Partition,
        sequence: Sequence,
    ) -> Result<Cost, Refusal>
        ensures { result ≡ stop_due self.now instance partition sequence }
    {
        self.find_server(instance, partition)?;
        let due = match self.replica(instance, partition, sequence) {
            Some(replica) => stops(replica.state()),
            None => false,
        };
        if !due {
            return Err(Refusal::NothingToDo);
        }
        self.price(Cost::none())
    }

    /// What it costs that a replica seals its rows, or why that can't happen now. Takes no memory.
    pub fn build_due(
        &self,
        instance: Instance,
        partition: Partition,
        sequence: Sequence,
    ) -> Result<Cost, Refusal>
        ensures { result ≡ build_due self.now instance partition sequence }
    {
        self.find_server(instance, partition)?;
        let due = match self.replica(instance, partition, sequence) {
            Some(replica) => replica.build_due(),
            None => false,
        };
        if !due {
            return Err(Refusal::NothingToDo);
        }
        self.price(Cost::none())
    }
}
