use rt_ground::Naming;
use rt_live_broker::BrokerSeat;
use rt_live_controller::RepairerSeat;
use rt_live_names::Cluster;

/// The nodes that post nothing and read what is there.
#[derive(Drop)]
pub(crate) struct Reading<R: Copy, J: Naming, K: Cluster> {
    pub(crate) repairer: RepairerSeat<R, J, K>,
    pub(crate) broker: BrokerSeat<R, J, K>,
}
