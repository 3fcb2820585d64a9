//! The servers and the controllers are put into their seats.
ghost use Rattle.std.specs.Prelude.{◌≡◌, ◌<◌, [], ◌∷◌, All, IfOk, OnOk};
ghost use Rattle.rt_front.specs.Histories.{history};
ghost use Rattle.rt_live_broker.specs.Feeds.{AreFeeds};
ghost use Rattle.rt_live_names.specs.Fronts.{broker_caller, controller_caller, repairer_caller, server_caller};
ghost use Rattle.rt_live_nodes.specs.Founding.{
  AreFrom,
  IsAsked,
  IsCaller,
  IsControllerPlace,
  IsOfCluster,
  IsSeatedBy,
  IsServerPlace,
  crash_at,
};
ghost use Rattle.rt_model.specs.Checked.{IsQuery};
ghost use Rattle.rt_model.specs.Setup.{IsSetup};
ghost use Rattle.rt_store.specs.Contents.{starting_of};

use crate::stock::Stock;
use rt_broker::PieceGiven;
use rt_front::{Blank, Front};
use rt_ground::{Appended, Caller, Naming};
use rt_link::never;
use rt_lists::Items;
use rt_live_broker::BrokerSeat;
use rt_live_controller::{ControllerSeat, RepairerSeat};
use rt_live_input::Chaos;
use rt_live_links::NodeLinks;
use rt_live_names::{Cluster, Posts};
use rt_live_server::{PieceKeeper, ServerSeat};
use rt_model::{Query, Setup};
use std::alloc::{AllocError, Global};
use std::sync::{Mutex, Wait};

/// Puts each server into its seat, behind its lock. The fronts of what they are asked are
/// added to the feeds.
pub(crate) fn seat_servers<R: Wait + Copy, J: Naming, K: Cluster>(
    rt: &R,
    alloc: Global,
    setup: &Setup,
    chaos: &Chaos,
    links: Vec<NodeLinks>,
    asked: Vec<Blank<PieceGiven>>,
    callers: &mut Stock<Caller<R, J>>,
    feeds: &mut Vec<Front<PieceGiven>>,
) -> Result<Vec<Mutex<ServerSeat<R, J, K>>>, AllocError>
    requires cluster { IsOfCluster J.starting K.names setup.now chaos.now }
    requires callers { AreFrom (IsCaller J.names) 1 callers.old }
    requires links { AreFrom (IsServerPlace K.names) 0 links.items }
    requires asked { AreFrom (IsAsked K.names) 0 asked.items }
    requires feeds { feeds.old.items ≡ [] }
    ensures callers { OnOk result (AreFrom (IsCaller J.names) (controller_caller K.names.setup 0) callers.new) }
    ensures feeds { OnOk result (AreFeeds K.names feeds.new.items) }
{
    let mut links = Stock::of(links);
    let mut asked = Stock::of(asked);
    let mut seats = Vec::new(alloc);
    for number in 0..setup.servers {
        let caller = next_caller(rt, callers);
        let node = next_links(rt, &mut links);
        let blank = next_blank(rt, &mut asked);
        let (pieces, feed) = PieceKeeper::found(alloc, blank)?;
        feeds.push(feed)?;
        let seat = seat_server(alloc, setup, chaos, number, caller, node, pieces)?;
        seats.push(Mutex::new(seat))?;
    }
    Ok(seats)
}

// Puts a server into its seat.
fn seat_server<R: Wait + Copy, J: Naming, K: Cluster>(
    alloc: Global,
    setup: &Setup,
    chaos: &Chaos,
    number: u32,
    caller: Caller<R, J>,
    node: NodeLinks,
    pieces: PieceKeeper,
) -> Result<ServerSeat<R, J, K>, AllocError>
    requires cluster { IsOfCluster J.starting K.names setup.now chaos.now }
    requires number { number < setup.now.servers }
    requires caller { IsCaller J.names (server_caller number) caller }
    requires node { IsServerPlace K.names number node }
    requires pieces { pieces ≡ history (K.names.asked number) [] 1 }
    ensures { IfOk result (IsSeatedBy chaos.now number) }
{
    let NodeLinks { inbox, posts } = node;
    ServerSeat::make(
        alloc,
        setup,
        number,
        caller,
        inbox,
        Posts::of(posts, chaos.drop, chaos.repeat),
        pieces,
        chaos.leaders,
        crash_of(chaos, number),
    )
}

// The turn in which a server crashes, where it does.
fn crash_of(chaos: &Chaos, number: u32) -> Option<u64>
    ensures { result ≡ crash_at chaos.now.crash number }
{
    match chaos.crash {
        Some(crash) if crash.instance.0 == number => Some(crash.turn),
        _ => None,
    }
}

/// Puts each controller into its seat.
pub(crate) fn seat_controllers<R: Wait + Copy, J: Naming, K: Cluster>(
    rt: &R,
    alloc: Global,
    setup: &Setup,
    chaos: &Chaos,
    journal: bool,
    links: Vec<NodeLinks>,
    callers: &mut Stock<Caller<R, J>>,
) -> Result<Vec<ControllerSeat<R, J, K>>, AllocError>
    requires cluster { IsOfCluster J.starting K.names setup.now chaos.now }
    requires callers { AreFrom (IsCaller J.names) (controller_caller K.names.setup 0) callers.old }
    requires links { AreFrom (IsControllerPlace K.names) 0 links.items }
    ensures callers { OnOk result (AreFrom (IsCaller J.names) (repairer_caller K.names.setup) callers.new) }
{
    let mut links = Stock::of(links);
    let mut seats = Vec::new(alloc);
    for number in 0..setup.controllers {
        let caller = next_caller(rt, callers);
        let node = next_links(rt, &mut links);
        let seat = seat_controller(alloc, setup, chaos, journal, number, caller, node)?;
        seats.push(seat)?;
    }
    Ok(seats)
}

// Puts a controller into its seat.
fn seat_controller<R: Wait + Copy, J: Naming, K: Cluster>(
    alloc: Global,
    setup: &Setup,
    chaos: &Chaos,
    journal: bool,
    number: u32,
    caller: Caller<R, J>,
    node: NodeLinks,
) -> Result<ControllerSeat<R, J, K>, AllocError>
    requires cluster { IsOfCluster J.starting K.names setup.now chaos.now }
    requires caller { IsCaller J.names (controller_caller K.names.setup number) caller }
    requires node { IsControllerPlace K.names number node }
{
    let NodeLinks { inbox, posts } = node;
    ControllerSeat::make(
        alloc,
        setup,
        number,
        chaos.leaders,
        journal,
        caller,
        inbox,
        Posts::of(posts, chaos.drop, chaos.repeat),
    )
}

/// Puts the repairer into its seat.
pub(crate) fn seat_repairer<R: Wait + Copy, J: Naming, K: Cluster>(
    rt: &R,
    alloc: Global,
    setup: &Setup,
    callers: &mut Stock<Caller<R, J>>,
) -> Result<RepairerSeat<R, J, K>, AllocError>
    requires setup { (setup.now ≡ K.names.setup) × IsSetup setup.now }
    requires starting { starting_of setup.now ≡ J.starting }
    requires callers { AreFrom (IsCaller J.names) (repairer_caller K.names.setup) callers.old }
    ensures callers { OnOk result (AreFrom (IsCaller J.names) (broker_caller K.names.setup) callers.new) }
{
    let caller = next_caller(rt, callers);
    let seat = RepairerSeat::make(alloc, setup, caller)?;
    Ok(seat)
}

/// Puts the broker into its seat.
pub(crate) fn seat_broker<R: Wait + Copy, J: Naming, K: Cluster>(
    rt: &R,
    alloc: Global,
    setup: &Setup,
    journal: bool,
    callers: Stock<Caller<R, J>>,
    feeds: Vec<Front<PieceGiven>>,
    queries: Items<Query>,
    rows: &[Appended],
) -> Result<BrokerSeat<R, J, K>, AllocError>
    requires setup { (setup.now ≡ K.names.setup) × IsSetup setup.now }
    requires starting { starting_of setup.now ≡ J.starting }
    requires callers { AreFrom (IsCaller J.names) (broker_caller K.names.setup) callers }
    requires feeds { AreFeeds K.names feeds.items }
    requires queries { (queries ≡ K.names.queries) × All (IsQuery setup.now.schema) queries }
    requires rows { rows.now ≡ K.names.rows }
{
    let mut callers = callers;
    let caller = next_caller(rt, &mut callers);
    BrokerSeat::make(alloc, setup, caller, feeds, queries, rows, journal)
}

/// The next caller. There is one for each node, so that it never waits.
pub(crate) fn next_caller<R: Wait + Copy, J: Naming>(
    rt: &R,
    callers: &mut Stock<Caller<R, J>>,
) -> Caller<R, J>
    ensures { callers.old ≡ result ∷ callers.new }
{
    match callers.next() {
        Some(caller) => caller,
        None => never(rt),
    }
}

// The links of the next node. There are some for each, so that it never waits.
fn next_links<R: Wait>(rt: &R, links: &mut Stock<NodeLinks>) -> NodeLinks
    ensures { links.old ≡ result ∷ links.new }
{
    match links.next() {
        Some(node) => node,
        None => never(rt),
    }
}

// The next name. There is one for each server, so that it never waits.
fn next_blank<R: Wait>(rt: &R, asked: &mut Stock<Blank<PieceGiven>>) -> Blank<PieceGiven>
    ensures { asked.old ≡ result ∷ asked.new }
{
    match asked.next() {
        Some(blank) => blank,
        None => never(rt),
    }
}
