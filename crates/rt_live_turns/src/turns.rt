use rt_base::{Clock, NodeId};
use rt_ground::Naming;
use rt_live_names::{Cluster, Ends};
use rt_live_server::ServerSeat;
use std::alloc::Global;
use std::sync::Mutex;

/// A node that takes turns in a thread of its own, beside the servers behind their locks.
pub(crate) trait Turns<R, J: Naming, K: Cluster> {
    /// The node that it is.
    fn id(&self) -> NodeId;

    /// The turn of this number, counted from 0; whether anything was done.
    fn turn<C: Clock>(
        &mut self,
        rt: &R,
        alloc: Global,
        clock: &C,
        ends: &Ends,
        servers: &[Mutex<ServerSeat<R, J, K>>],
        turn: u64,
    ) -> bool;

    /// A turn in which nothing is posted, for the end of a run; whether anything was done.
    fn drain<C: Clock>(
        &mut self,
        rt: &R,
        alloc: Global,
        clock: &C,
        ends: &Ends,
        servers: &[Mutex<ServerSeat<R, J, K>>],
    ) -> bool;
}
