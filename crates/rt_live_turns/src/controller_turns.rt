use crate::turns::Turns;
use rt_base::{Clock, ControllerId, NodeId};
use rt_ground::Naming;
use rt_live_controller::ControllerSeat;
use rt_live_names::{Cluster, Ends};
use rt_live_server::ServerSeat;
use std::alloc::Global;
use std::sync::{Mutex, Wait};

impl<R: Wait + Copy, J: Naming, K: Cluster> Turns<R, J, K> for ControllerSeat<R, J, K> {
    fn id(&self) -> NodeId {
        NodeId::Controller(ControllerId(self.number()))
    }

    fn turn<C: Clock>(
        &mut self,
        rt: &R,
        alloc: Global,
        clock: &C,
        ends: &Ends,
        _servers: &[Mutex<ServerSeat<R, J, K>>],
        _turn: u64,
    ) -> bool {
        ControllerSeat::turn(self, rt, alloc, clock, ends)
    }

    fn drain<C: Clock>(
        &mut self,
        rt: &R,
        alloc: Global,
        clock: &C,
        ends: &Ends,
        _servers: &[Mutex<ServerSeat<R, J, K>>],
    ) -> bool {
        ControllerSeat::drain(self, rt, alloc, clock, ends)
    }
}
