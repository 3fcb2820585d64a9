use crate::turns::Turns;
use rt_base::{Clock, NodeId};
use rt_ground::Naming;
use rt_live_controller::RepairerSeat;
use rt_live_names::{Cluster, Ends};
use rt_live_server::ServerSeat;
use std::alloc::Global;
use std::sync::{Mutex, Wait};

impl<R: Wait + Copy, J: Naming, K: Cluster> Turns<R, J, K> for RepairerSeat<R, J, K> {
    fn id(&self) -> NodeId {
        NodeId::Repairer
    }

    fn turn<C: Clock>(
        &mut self,
        _rt: &R,
        alloc: Global,
        clock: &C,
        ends: &Ends,
        _servers: &[Mutex<ServerSeat<R, J, K>>],
        _turn: u64,
    ) -> bool {
        RepairerSeat::turn(self, alloc, clock, ends)
    }

    fn drain<C: Clock>(
        &mut self,
        _rt: &R,
        _alloc: Global,
        _clock: &C,
        _ends: &Ends,
        _servers: &[Mutex<ServerSeat<R, J, K>>],
    ) -> bool {
        false
    }
}
