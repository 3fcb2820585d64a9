//! Who is there, and who is up.
ghost use Rattle.std.specs.Prelude.{◌≡◌, ◌<◌, length, OnOk, option_map};
ghost use Rattle.rt_state.specs.Finding.{
  has_partition,
  has_server,
  has_controller,
  is_server_up,
  is_controller_up,
  find_server,
  find_controller,
  replica_at,
  request_at,
  reply_at,
  query_at,
};

use crate::State;
use rt_base::{ControllerId, Instance, Partition, Sequence};
use rt_broker::Asked;
use rt_events::Refusal;
use rt_model::{Reply, Request, Sent};
use rt_replica::Replica;

impl State {
    pub(crate) fn has_partition(&self, partition: Partition) -> bool
        ensures { result ≡ has_partition self.now partition }
    {
        partition.0 < self.setup.partitions
    }

    pub(crate) fn has_server(&self, instance: Instance) -> bool
        ensures { result ≡ has_server self.now instance }
    {
        (instance.0 as usize) < self.servers.len()
    }

    pub(crate) fn has_controller(&self, controller: ControllerId) -> bool
        ensures { result ≡ has_controller self.now controller }
    {
        (controller.0 as usize) < self.controllers.len()
    }

    /// Whether a server is up; one that isn't there is not.
    pub fn is_server_up(&self, instance: Instance) -> bool
        ensures { result ≡ is_server_up self.now instance }
    {
        match self.servers.get(instance.0 as usize) {
            Some(node) => node.up,
            None => false,
        }
    }

    /// Whether a controller is up; one that isn't there is not.
    pub fn is_controller_up(&self, controller: ControllerId) -> bool
        ensures { result ≡ is_controller_up self.now controller }
    {
        match self.controllers.get(controller.0 as usize) {
            Some(node) => node.up,
            None => false,
        }
    }

    /// A server and a partition that are there, the server being up.
    pub fn find_server(&self, instance: Instance, partition: Partition) -> Result<(), Refusal>
        ensures found { result ≡ find_server self.now instance partition }
        ensures there { OnOk result (instance.0 < length self.now.servers) }
    {
        if !(self.has_server(instance) && self.has_partition(partition)) {
            return Err(Refusal::NoSuchNode);
        }
        if !self.is_server_up(instance) {
            return Err(Refusal::NodeDown);
        }
        Ok(())
    }

    /// A controller that is there and up.
    pub(crate) fn find_controller(&self, controller: ControllerId) -> Result<(), Refusal>
        ensures found { result ≡ find_controller self.now controller }
        ensures there { OnOk result (controller.0 < length self.now.controllers) }
    {
        if !self.has_controller(controller) {
            return Err(Refusal::NoSuchNode);
        }
        if !self.is_controller_up(controller) {
            return Err(Refusal::NodeDown);
        }
        Ok(())
    }

    /// The replica of a segment at a server.
    pub fn replica(
        &self,
        instance: Instance,
        partition: Partition,
        sequence: Sequence,
    ) -> Option<&Replica>
        ensures { option_map (λ replica. replica.now) result ≡ replica_at self.now instance partition sequence }
    {
        match self.servers.get(instance.0 as usize) {
            Some(node) => node.server.replica(partition, sequence),
            None => None,
        }
    }

    /// The request of a message's number.
    pub(crate) fn request(&self, message: u64) -> Option<&Request>
        ensures { option_map (λ request. request.now) result ≡ request_at self.now message }
    {
        match self.sent.get(message as usize) {
            Some(Sent::Request(request)) => Some(request),
            Some(Sent::Reply(_)) => None,
            None => None,
        }
    }

    /// The reply of a message's number.
    pub(crate) fn reply_of(&self, message: u64) -> Option<&Reply>
        ensures { option_map (λ reply. reply.now) result ≡ reply_at self.now message }
    {
        match self.sent.get(message as usize) {
            Some(Sent::Reply(reply)) => Some(reply),
            Some(Sent::Request(_)) => None,
            None => None,
        }
    }

    /// The query of a number, where it isn't answered yet.
    pub fn query_of(&self, query: u32) -> Option<&Asked>
        ensures { option_map (λ asked. asked.now) result ≡ query_at self.now query }
    {
        match self.queries.get(query as usize) {
            Some(Some(asked)) => Some(asked),
            Some(None) => None,
            None => None,
        }
    }
}
