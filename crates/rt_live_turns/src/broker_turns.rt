use crate::turns::Turns;
use rt_base::{Clock, NodeId};
use rt_ground::Naming;
use rt_live_broker::BrokerSeat;
use rt_live_names::{Cluster, Ends};
use rt_live_server::ServerSeat;
use std::alloc::Global;
use std::sync::{Mutex, Wait};

impl<R: Wait + Copy, J: Naming, K: Cluster> Turns<R, J, K> for BrokerSeat<R, J, K> {
    fn id(&self) -> NodeId {
        NodeId::Broker
    }

    fn turn<C: Clock>(
        &mut self,
        rt: &R,
        alloc: Global,
        _clock: &C,
        ends: &Ends,
        servers: &[Mutex<ServerSeat<R, J, K>>],
        _turn: u64,
    ) -> bool {
        BrokerSeat::turn(self, rt, alloc, ends, servers)
    }

    fn drain<C: Clock>(
        &mut self,
        _rt: &R,
        _alloc: Global,
        _clock: &C,
        _ends: &Ends,
        _servers: &[Mutex<ServerSeat<R, J, K>>],
    ) -> bool {
        false
    }
}
