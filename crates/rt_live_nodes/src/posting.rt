use rt_ground::Naming;
use rt_live_controller::ControllerSeat;
use rt_live_names::Cluster;
use rt_live_server::ServerSeat;
use std::sync::Mutex;

/// The nodes that post to each other.
#[derive(Drop)]
pub(crate) struct Posting<R: Copy, J: Naming, K: Cluster> {
    pub(crate) numbers: Vec<u32>,
    pub(crate) servers: Vec<Mutex<ServerSeat<R, J, K>>>,
    pub(crate) controllers: Vec<ControllerSeat<R, J, K>>,
}
