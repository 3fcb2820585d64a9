use rt_ground::Naming;
use rt_live_broker::BrokerSeat;
use rt_live_controller::{ControllerSeat, RepairerSeat};
use rt_live_names::Cluster;
use rt_live_producer::ProducerSeat;
use rt_live_server::ServerSeat;
use std::sync::Mutex;

/// The nodes of a cluster. A server stands behind its lock, where its own thread and the broker find it.
#[derive(Drop)]
pub struct Nodes<R: Copy, J: Naming, K: Cluster> {
    /// The number of each server, for its thread.
    pub numbers: Vec<u32>,
    pub servers: Vec<Mutex<ServerSeat<R, J, K>>>,
    pub controllers: Vec<ControllerSeat<R, J, K>>,
    pub repairer: RepairerSeat<R, J, K>,
    pub broker: BrokerSeat<R, J, K>,
    pub producer: ProducerSeat<R, J, K>,
}
