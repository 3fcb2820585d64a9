ghost use Rattle.std.specs.Prelude.{◌≡◌, ◌≤◌, All, length, map, IfOk};
ghost use Rattle.rt_live_links.specs.Linked.{AreLinked, IsBare, row_to};

use crate::all_links::Links;
use crate::dealing::deal_all;
use crate::node_links::NodeLinks;
use rt_link::{Post, link};
use rt_lists::Items;
use std::alloc::{AllocError, Global};

/// Makes an inbox for each server and each controller, which holds so many envelopes, and for each of these nodes a
/// post to each node of the other kind. A node sends under its number among the nodes of its kind.
pub fn links(
    alloc: Global,
    capacity: u32,
    servers: u32,
    controllers: u32,
) -> Result<Links, AllocError>
    requires capacity { 1 ≤ capacity }
    requires servers { 1 ≤ servers }
    requires controllers { 1 ≤ controllers }
    ensures servers { IfOk result (λ links. length links.servers.items ≡ servers) }
    ensures controllers { IfOk result (λ links. length links.controllers.items ≡ controllers) }
    ensures of_servers { IfOk result
        (λ links. AreLinked capacity links.controllers.items links.servers.items) }
    ensures of_controllers { IfOk result
        (λ links. AreLinked capacity links.servers.items links.controllers.items) }
{
    let new_servers = new_nodes(alloc, capacity, servers, controllers)?;
    let new_controllers = new_nodes(alloc, capacity, controllers, servers)?;
    Ok(Links {
        servers: deal_all(new_servers.nodes, new_controllers.rows)?,
        controllers: deal_all(new_controllers.nodes, new_servers.rows)?,
    })
}

// The nodes of one kind, which have no post yet, and for each of them the posts of all its senders.
#[derive(Drop)]
struct NewNodes {
    nodes: Vec<NodeLinks>,
    rows: Vec<Items<Post>>,
}

// So many nodes, each with an inbox for so many senders.
fn new_nodes(alloc: Global, capacity: u32, count: u32, senders: u32) -> Result<NewNodes, AllocError>
    requires capacity { 1 ≤ capacity }
    requires senders { 1 ≤ senders }
    ensures count { IfOk result (λ new. length new.nodes.items ≡ count) }
    ensures nodes { IfOk result (λ new. All (IsBare capacity senders) new.nodes.items) }
    ensures rows { IfOk result (λ new. new.rows.items
        ≡ map (λ node. row_to capacity senders node.inbox) new.nodes.items) }
{
    let mut nodes = Vec::with_capacity(alloc, count as usize)?;
    let mut rows = Vec::with_capacity(alloc, count as usize)?;
    for _number in 0..count {
        let (inbox, posts) = link(alloc, capacity, senders)?;
        nodes.push(NodeLinks {
            inbox,
            posts: Vec::new(alloc),
        })?;
        rows.push(Items::of(posts))?;
    }
    Ok(NewNodes { nodes, rows })
}
