//! When a server can see the ideal state, move a segment, and load a file.
ghost use Rattle.std.specs.Prelude.{◌≡◌};
ghost use Rattle.rt_state.specs.Servers.{moves_at, wants_at, see_due, transit_due, download_due};

use crate::{Cost, State};
use rt_base::{Instance, Partition, Sequence};
use rt_events::Refusal;

impl State {
    /// What it costs that a server reads the ideal state, or why that can't happen now. Takes no memory.
    pub fn see_due(&self, instance: Instance) -> Result<Cost, Refusal>
        ensures { result ≡ see_due self.now instance }
    {
        if !self.has_server(instance) {
            return Err(Refusal::NoSuchNode);
        }
        if !self.is_server_up(instance) {
            return Err(Refusal::NodeDown);
        }
        self.price(Cost::none())
    }

    /// What it costs that a server moves a segment, or why that can't happen now. Takes no memory.
    pub fn transit_due(
        &self,
        instance: Instance,
        partition: Partition,
        sequence: Sequence,
    ) -> Result<Cost, Refusal>
        ensures { result ≡ transit_due self.now instance partition sequence }
    {
        self.find_server(instance, partition)?;
        if !self.moves(instance, partition, sequence) {
            return Err(Refusal::NothingToDo);
        }
        self.price(Cost::none())
    }

    fn moves(&self, instance: Instance, partition: Partition, sequence: Sequence) -> bool
        ensures { result ≡ moves_at self.now instance partition sequence }
    {
        match self.servers.get(instance.0 as usize) {
            Some(node) => node.server.transit_due(partition, sequence),
            None => false,
        }
    }

    fn wants(&self, instance: Instance, partition: Partition, sequence: Sequence) -> bool
        ensures { result ≡ wants_at self.now instance partition sequence }
    {
        match self.servers.get(instance.0 as usize) {
            Some(node) => node.server.wants(partition, sequence),
            None => false,
        }
    }

    /// What it costs that a server loads a wanted file, or why that can't happen now. Takes no memory.
    pub fn download_due(
        &self,
        instance: Instance,
        partition: Partition,
        sequence: Sequence,
    ) -> Result<Cost, Refusal>
        ensures { result ≡ download_due self.now instance partition sequence }
    {
        self.find_server(instance, partition)?;
        if !self.wants(instance, partition, sequence) {
            return Err(Refusal::NothingToDo);
        }
        self.price(Cost::none())
    }
}
