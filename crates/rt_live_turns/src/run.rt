use crate::turns::Turns;
use rt_base::{Clock, Gate};
use rt_ground::Naming;
use rt_live_names::{Cluster, Ends};
use rt_live_server::ServerSeat;
use std::alloc::Global;
use std::sync::{Mutex, Wait};
use std::thread;

/// The turns of one of so many nodes, up to the end of the run: it posts until all queries are answered or memory runs
/// out, and then takes what is left in its inbox once no node posts any more. Each turn begins at the gate; one in
/// which nothing was done yields. Where memory ran out it waits for no other node: one of them may have no thread. A node
/// whose count of turns has come to its last value goes on passing the gate, and does nothing more.
pub(crate) fn run<R: Wait + Copy, J: Naming, K: Cluster, C: Clock, G: Gate, N: Turns<R, J, K>>(
    rt: &R,
    alloc: Global,
    clock: &C,
    gate: &G,
    ends: &Ends,
    servers: &[Mutex<ServerSeat<R, J, K>>],
    count: u64,
    node: &mut N,
) {
    let id = node.id();
    let mut turn = 0;
    let mut closing = false;
    for _ in rt.forever() {
        gate.pass(id, turn);
        if turn == u64::MAX {
            thread::yield_now();
            continue;
        }
        if !closing && ends.is_closing() {
            closing = true;
            ends.stop();
        }
        let last = closing && (ends.is_refused() || ends.have_stopped(count));
        let done = if closing {
            node.drain(rt, alloc, clock, ends, servers)
        } else {
            node.turn(rt, alloc, clock, ends, servers, turn)
        };
        if last && !done {
            break;
        }
        if !done {
            thread::yield_now();
        }
        turn += 1;
    }
}
