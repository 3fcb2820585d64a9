ghost use Rattle.std.specs.Prelude.{◌≡◌, ◌+◌, ◌≤◌, [], All, OnOk, length};
ghost use Rattle.rt_live_broker.specs.Feeds.{AreFeeds};
ghost use Rattle.rt_live_input.specs.Input.{IsInput};
ghost use Rattle.rt_live_links.specs.Linked.{AreLinked};
ghost use Rattle.rt_live_names.specs.Fronts.{callers_of, producer_caller, repairer_caller};
ghost use Rattle.rt_live_nodes.specs.Founding.{
  AreFrom,
  IsAsked,
  IsCaller,
  IsControllerPlace,
  IsOfCluster,
  IsServerPlace,
  inbox_size,
  names_of,
};
ghost use Rattle.rt_model.specs.Checked.{IsQuery};
ghost use Rattle.rt_model.specs.Setup.{IsSetup};
ghost use Rattle.rt_store.specs.Contents.{starting_of};

use crate::founded::Founded;
use crate::nodes::Nodes;
use crate::posting::Posting;
use crate::reading::Reading;
use crate::seating::{next_caller, seat_broker, seat_controllers, seat_repairer, seat_servers};
use crate::stock::Stock;
use rt_broker::PieceGiven;
use rt_front::{Blank, Front};
use rt_ground::{Appended, Blanks, Caller, Ground, Naming};
use rt_lists::Items;
use rt_live_input::{Chaos, Input};
use rt_live_links::Links;
use rt_live_names::Cluster;
use rt_live_producer::ProducerSeat;
use rt_model::{Query, Setup};
use std::alloc::{AllocError, Global};
use std::sync::Wait;

/// How many callers a cluster has: one for each server and controller, the producer, the repairer and the broker.
pub fn callers_of(setup: &Setup) -> u32
    requires { setup.now.servers + setup.now.controllers ≤ 1000 }
    ensures { result ≡ callers_of setup.now }
{
    3 + setup.servers + setup.controllers
}

/// Founds a cluster over an input: its ground, and each node in its seat. Fails only where memory is refused.
pub fn found_cluster<R: Wait + Copy, J: Naming, K: Cluster>(
    rt: R,
    alloc: Global,
    blanks: Blanks,
    asked: Vec<Blank<PieceGiven>>,
    links: Links,
    input: Input,
    journal: bool,
) -> Result<Founded<R, J, K>, AllocError>
    requires fits { IsInput input }
    requires ground { (blanks ≡ J.names) × (starting_of input.setup ≡ J.starting)
        × (J.callers ≡ callers_of input.setup) }
    requires names { K.names ≡ names_of input links asked.items }
    requires asked { length asked.items ≡ input.setup.servers }
    requires servers { (length links.servers.items ≡ input.setup.servers)
        × AreLinked inbox_size links.controllers.items links.servers.items }
    requires controllers { (length links.controllers.items ≡ input.setup.controllers)
        × AreLinked inbox_size links.servers.items links.controllers.items }
{
    let count = callers_of(&input.setup);
    let (ground, callers) = Ground::<R, J>::found(rt, alloc, blanks, &input.setup, count)?;
    let mut callers = Stock::of(callers);
    let producer = next_caller(&rt, &mut callers);
    let nodes = seat_all(rt, alloc, asked, links, input, journal, producer, callers)?;
    Ok(Founded { ground, nodes })
}

// Puts each node into its seat.
fn seat_all<R: Wait + Copy, J: Naming, K: Cluster>(
    rt: R,
    alloc: Global,
    asked: Vec<Blank<PieceGiven>>,
    links: Links,
    input: Input,
    journal: bool,
    producer: Caller<R, J>,
    callers: Stock<Caller<R, J>>,
) -> Result<Nodes<R, J, K>, AllocError>
    requires fits { IsInput input }
    requires starts { starting_of input.setup ≡ J.starting }
    requires names { K.names ≡ names_of input links asked.items }
    requires servers { (length links.servers.items ≡ input.setup.servers)
        × AreLinked inbox_size links.controllers.items links.servers.items }
    requires controllers { (length links.controllers.items ≡ input.setup.controllers)
        × AreLinked inbox_size links.servers.items links.controllers.items }
    requires producer { IsCaller J.names producer_caller producer }
    requires callers { AreFrom (IsCaller J.names) 1 callers }
{
    let Input {
        setup,
        chaos,
        rows,
        queries,
    } = input;
    let (posting, reading) = seat_others(
        &rt,
        alloc,
        &setup,
        &chaos,
        journal,
        links,
        asked,
        callers,
        queries,
        rows.as_slice(),
    )?;
    let Posting {
        numbers,
        servers,
        controllers,
    } = posting;
    let Reading { repairer, broker } = reading;
    Ok(Nodes {
        numbers,
        servers,
        controllers,
        repairer,
        broker,
        producer: ProducerSeat::of(producer, rows),
    })
}

// Puts each node but the producer into its seat.
fn seat_others<R: Wait + Copy, J: Naming, K: Cluster>(
    rt: &R,
    alloc: Global,
    setup: &Setup,
    chaos: &Chaos,
    journal: bool,
    links: Links,
    asked: Vec<Blank<PieceGiven>>,
    callers: Stock<Caller<R, J>>,
    queries: Items<Query>,
    rows: &[Appended],
) -> Result<(Posting<R, J, K>, Reading<R, J, K>), AllocError>
    requires cluster { IsOfCluster J.starting K.names setup.now chaos.now }
    requires servers { AreFrom (IsServerPlace K.names) 0 links.servers.items }
    requires controllers { AreFrom (IsControllerPlace K.names) 0 links.controllers.items }
    requires asked { AreFrom (IsAsked K.names) 0 asked.items }
    requires callers { AreFrom (IsCaller J.names) 1 callers }
    requires queries { (queries ≡ K.names.queries) × All (IsQuery setup.now.schema) queries }
    requires rows { rows.now ≡ K.names.rows }
{
    let mut callers = callers;
    let mut feeds = Vec::new(alloc);
    let posting = seat_posting(
        rt,
        alloc,
        setup,
        chaos,
        journal,
        links,
        asked,
        &mut callers,
        &mut feeds,
    )?;
    let reading = seat_reading(rt, alloc, setup, journal, callers, feeds, queries, rows)?;
    Ok((posting, reading))
}

// Puts the servers and the controllers into their seats. The fronts of what the servers are asked are added to the
// feeds.
fn seat_posting<R: Wait + Copy, J: Naming, K: Cluster>(
    rt: &R,
    alloc: Global,
    setup: &Setup,
    chaos: &Chaos,
    journal: bool,
    links: Links,
    asked: Vec<Blank<PieceGiven>>,
    callers: &mut Stock<Caller<R, J>>,
    feeds: &mut Vec<Front<PieceGiven>>,
) -> Result<Posting<R, J, K>, AllocError>
    requires cluster { IsOfCluster J.starting K.names setup.now chaos.now }
    requires servers { AreFrom (IsServerPlace K.names) 0 links.servers.items }
    requires controllers { AreFrom (IsControllerPlace K.names) 0 links.controllers.items }
    requires asked { AreFrom (IsAsked K.names) 0 asked.items }
    requires callers { AreFrom (IsCaller J.names) 1 callers.old }
    requires feeds { feeds.old.items ≡ [] }
    ensures callers { OnOk result (AreFrom (IsCaller J.names) (repairer_caller K.names.setup) callers.new) }
    ensures feeds { OnOk result (AreFeeds K.names feeds.new.items) }
{
    let Links {
        servers,
        controllers,
    } = links;
    let servers = seat_servers(rt, alloc, setup, chaos, servers, asked, callers, feeds)?;
    let controllers = seat_controllers(rt, alloc, setup, chaos, journal, controllers, callers)?;
    let numbers = numbers_below(alloc, setup.servers)?;
    Ok(Posting {
        numbers,
        servers,
        controllers,
    })
}

// Puts the repairer and the broker into their seats.
fn seat_reading<R: Wait + Copy, J: Naming, K: Cluster>(
    rt: &R,
    alloc: Global,
    setup: &Setup,
    journal: bool,
    callers: Stock<Caller<R, J>>,
    feeds: Vec<Front<PieceGiven>>,
    queries: Items<Query>,
    rows: &[Appended],
) -> Result<Reading<R, J, K>, AllocError>
    requires setup { (setup.now ≡ K.names.setup) × IsSetup setup.now }
    requires starting { starting_of setup.now ≡ J.starting }
    requires callers { AreFrom (IsCaller J.names) (repairer_caller K.names.setup) callers }
    requires feeds { AreFeeds K.names feeds.items }
    requires queries { (queries ≡ K.names.queries) × All (IsQuery setup.now.schema) queries }
    requires rows { rows.now ≡ K.names.rows }
{
    let mut callers = callers;
    let repairer = seat_repairer(rt, alloc, setup, &mut callers)?;
    let broker = seat_broker(rt, alloc, setup, journal, callers, feeds, queries, rows)?;
    Ok(Reading { repairer, broker })
}

// The numbers below this one.
fn numbers_below(alloc: Global, count: u32) -> Result<Vec<u32>, AllocError> {
    let mut numbers = Vec::new(alloc);
    for number in 0..count {
        numbers.push(number)?;
    }
    Ok(numbers)
}
