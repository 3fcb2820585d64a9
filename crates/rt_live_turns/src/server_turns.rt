use crate::turns::Turns;
use rt_base::{Clock, Instance, NodeId};
use rt_ground::Naming;
use rt_link::never;
use rt_live_names::{Cluster, Ends};
use rt_live_server::ServerSeat;
use std::alloc::Global;
use std::sync::{Mutex, Wait};

/// A server, as its thread has it: by its number, since its seat stands behind its lock.
#[derive(Drop)]
pub(crate) struct ServerTurns {
    pub(crate) number: u32,
}

impl<R: Wait + Copy, J: Naming, K: Cluster> Turns<R, J, K> for ServerTurns {
    fn id(&self) -> NodeId {
        NodeId::Server(Instance(self.number))
    }

    fn turn<C: Clock>(
        &mut self,
        rt: &R,
        alloc: Global,
        clock: &C,
        ends: &Ends,
        servers: &[Mutex<ServerSeat<R, J, K>>],
        turn: u64,
    ) -> bool {
        let Some(seat) = servers.get(self.number as usize) else {
            return never(rt);
        };
        let mut seat = seat.lock(rt);
        seat.turn(rt, alloc, clock, ends, turn)
    }

    fn drain<C: Clock>(
        &mut self,
        rt: &R,
        _alloc: Global,
        _clock: &C,
        _ends: &Ends,
        servers: &[Mutex<ServerSeat<R, J, K>>],
    ) -> bool {
        let Some(seat) = servers.get(self.number as usize) else {
            return never(rt);
        };
        let mut seat = seat.lock(rt);
        seat.drain(rt)
    }
}
