//! The nodes of a cluster run, each in a thread of its own.
use crate::run::run;
use crate::server_turns::ServerTurns;
use rt_base::{Clock, Gate};
use rt_ground::Naming;
use rt_live_broker::BrokerSeat;
use rt_live_controller::{ControllerSeat, RepairerSeat};
use rt_live_names::{Cluster, Ends};
use rt_live_nodes::Nodes;
use rt_live_producer::ProducerSeat;
use rt_live_server::ServerSeat;
use std::alloc::Global;
use std::sync::{Mutex, Wait};
use std::thread::{Threads, scope, scope_env};

/// Runs the nodes of a cluster, each in a thread of its own, until all queries are answered or memory runs out, and all
/// that was posted was taken. Each turn begins at the gate. Where no thread can be made for a node, the run ends as one
/// does whose memory runs out.
///
/// Afterwards each node is what its type keeps, and nothing else is known of it: not which server stands at which
/// place, nor that a node did anything. What it did stands in its own diary, which its type keeps.
pub fn run_all<
    R: Threads + Wait + Copy + Send + Sync,
    J: Naming + Send + Sync,
    K: Cluster + Send + Sync,
    C: Clock + Sync,
    G: Gate + Sync,
>(rt: &R, alloc: Global, clock: &C, gate: &G, ends: &Ends, nodes: &mut Nodes<R, J, K>) {
    let Nodes {
        numbers,
        servers,
        controllers,
        repairer,
        broker,
        producer,
    } = nodes;
    run_nodes(
        rt,
        alloc,
        clock,
        gate,
        ends,
        servers,
        producer,
        repairer,
        broker,
        controllers,
        numbers,
    );
}

// The producer and the repairer run beside the broker, the controllers and the servers.
fn run_nodes<
    R: Threads + Wait + Copy + Send + Sync,
    J: Naming + Send + Sync,
    K: Cluster + Send + Sync,
    C: Clock + Sync,
    G: Gate + Sync,
>(
    rt: &R,
    alloc: Global,
    clock: &C,
    gate: &G,
    ends: &Ends,
    servers: &[Mutex<ServerSeat<R, J, K>>],
    producer: &mut ProducerSeat<R, J, K>,
    repairer: &mut RepairerSeat<R, J, K>,
    broker: &mut BrokerSeat<R, J, K>,
    controllers: &mut [ControllerSeat<R, J, K>],
    numbers: &[u32],
) {
    let count = numbers.len() as u64 + controllers.len() as u64 + 3;
    beside(
        rt,
        ends,
        || run_producer(
            rt, alloc, clock, gate, ends, servers, count, producer, repairer,
        ),
        || {
            run_broker(
                rt,
                alloc,
                clock,
                gate,
                ends,
                servers,
                count,
                broker,
                controllers,
                numbers,
            )
        },
    );
}

// The producer runs beside the repairer.
fn run_producer<
    R: Threads + Wait + Copy + Send + Sync,
    J: Naming + Send + Sync,
    K: Cluster + Send + Sync,
    C: Clock + Sync,
    G: Gate + Sync,
>(
    rt: &R,
    alloc: Global,
    clock: &C,
    gate: &G,
    ends: &Ends,
    servers: &[Mutex<ServerSeat<R, J, K>>],
    count: u64,
    producer: &mut ProducerSeat<R, J, K>,
    repairer: &mut RepairerSeat<R, J, K>,
) {
    beside(
        rt,
        ends,
        || run(rt, alloc, clock, gate, ends, servers, count, producer),
        || run(rt, alloc, clock, gate, ends, servers, count, repairer),
    );
}

// The controllers and the servers run beside the broker, which stays in this thread.
fn run_broker<
    R: Threads + Wait + Copy + Send + Sync,
    J: Naming + Send + Sync,
    K: Cluster + Send + Sync,
    C: Clock + Sync,
    G: Gate + Sync,
>(
    rt: &R,
    alloc: Global,
    clock: &C,
    gate: &G,
    ends: &Ends,
    servers: &[Mutex<ServerSeat<R, J, K>>],
    count: u64,
    broker: &mut BrokerSeat<R, J, K>,
    controllers: &mut [ControllerSeat<R, J, K>],
    numbers: &[u32],
) {
    beside(
        rt,
        ends,
        || run_others(
            rt,
            alloc,
            clock,
            gate,
            ends,
            servers,
            count,
            controllers,
            numbers,
        ),
        || run(rt, alloc, clock, gate, ends, servers, count, broker),
    );
}

// The servers run beside the controllers.
fn run_others<
    R: Threads + Wait + Copy + Send + Sync,
    J: Naming + Send + Sync,
    K: Cluster + Send + Sync,
    C: Clock + Sync,
    G: Gate + Sync,
>(
    rt: &R,
    alloc: Global,
    clock: &C,
    gate: &G,
    ends: &Ends,
    servers: &[Mutex<ServerSeat<R, J, K>>],
    count: u64,
    controllers: &mut [ControllerSeat<R, J, K>],
    numbers: &[u32],
) {
    beside(
        rt,
        ends,
        || run_servers(rt, alloc, clock, gate, ends, servers, count, numbers),
        || run_controllers(rt, alloc, clock, gate, ends, servers, count, controllers),
    );
}

// The servers run beside each other.
fn run_servers<
    R: Threads + Wait + Copy + Send + Sync,
    J: Naming + Send + Sync,
    K: Cluster + Send + Sync,
    C: Clock + Sync,
    G: Gate + Sync,
>(
    rt: &R,
    alloc: Global,
    clock: &C,
    gate: &G,
    ends: &Ends,
    servers: &[Mutex<ServerSeat<R, J, K>>],
    count: u64,
    numbers: &[u32],
) {
    scope(scope_env(), rt, |threads| {
        for number in numbers.iter() {
            let number = *number;
            let begun = threads.spawn(move || {
                run_server(rt, alloc, clock, gate, ends, servers, count, number)
            });
            if begun.is_err() {
                ends.refuse();
            }
        }
    });
}

// The controllers run beside each other.
fn run_controllers<
    R: Threads + Wait + Copy + Send + Sync,
    J: Naming + Send + Sync,
    K: Cluster + Send + Sync,
    C: Clock + Sync,
    G: Gate + Sync,
>(
    rt: &R,
    alloc: Global,
    clock: &C,
    gate: &G,
    ends: &Ends,
    servers: &[Mutex<ServerSeat<R, J, K>>],
    count: u64,
    controllers: &mut [ControllerSeat<R, J, K>],
) {
    scope(scope_env(), rt, |threads| {
        for seat in controllers.iter_mut() {
            let begun = threads.spawn(move || {
                run(rt, alloc, clock, gate, ends, servers, count, seat)
            });
            if begun.is_err() {
                ends.refuse();
            }
        }
    });
}

// One server runs.
fn run_server<R: Wait + Copy, J: Naming, K: Cluster, C: Clock, G: Gate>(
    rt: &R,
    alloc: Global,
    clock: &C,
    gate: &G,
    ends: &Ends,
    servers: &[Mutex<ServerSeat<R, J, K>>],
    count: u64,
    number: u32,
) {
    let mut server = ServerTurns { number };
    run(rt, alloc, clock, gate, ends, servers, count, &mut server);
}

// Runs `others` in a thread of their own, and `own` in this one, until both have returned. Where no thread can be made
// memory ran out, and `own` alone is run, up to the end that it then comes to.
fn beside<R: Threads + Wait, A: FnOnce() + Send + Drop, B: FnOnce() + Drop>(
    rt: &R,
    ends: &Ends,
    others: A,
    own: B,
)
    requires others { A.pre others }
    requires own { B.pre own }
{
    scope(
        scope_env(),
        rt,
        move |threads|
            requires { A.pre others × B.pre own }
        {
            if threads.spawn(others).is_err() {
                ends.refuse();
            }
            own();
        },
    );
}
