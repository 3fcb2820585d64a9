ghost use Rattle.std.specs.Prelude.{◌≡◌, ◌<◌, ◌≤◌, ◌^◌, All, length, map, IfOk};
ghost use Rattle.rt_live_links.specs.Counted.{queues};
ghost use Rattle.rt_live_links.specs.Gathered.{AreEnds, AreGathered, TookRightly, gathering};
ghost use Rattle.rt_live_links.specs.Rows.{inboxes_of, onto, onto_all, posts_of};

use crate::counting::count_queues;
use crate::node_links::NodeLinks;
use rt_link::{Inbox, Post};
use rt_lists::Items;
use rt_live_output::Queue;
use std::alloc::{AllocError, Global};

/// What stands when all nodes have ended and each post went to the inbox of its receiver.
#[derive(Drop)]
pub struct Gathered {
    /// The inbox of each server, by its number.
    pub servers: Vec<Inbox>,
    /// The inbox of each controller, by its number.
    pub controllers: Vec<Inbox>,
    /// The queues of each server, one to each controller.
    pub to_controllers: Items<Items<Queue>>,
    /// The queues of each controller, one to each server.
    pub to_servers: Items<Items<Queue>>,
}

/// Counts each queue, and gives each post to the inbox of its receiver, the senders in the order of their numbers.
pub fn gather_all(
    alloc: Global,
    servers: Vec<NodeLinks>,
    controllers: Vec<NodeLinks>,
) -> Result<Gathered, AllocError>
    requires some { (1 ≤ length servers.items) × (1 ≤ length controllers.items) }
    requires few { (length servers.items < 2 ^ 32) × (length controllers.items < 2 ^ 32) }
    requires servers { AreEnds controllers.items servers.items }
    requires controllers { AreEnds servers.items controllers.items }
    ensures to_controllers { IfOk result
        (λ all. all.to_controllers ≡ queues servers.items controllers.items) }
    ensures to_servers { IfOk result
        (λ all. all.to_servers ≡ queues controllers.items servers.items) }
    ensures servers { IfOk result
        (λ all. AreGathered controllers.items servers.items all.servers.items) }
    ensures controllers { IfOk result
        (λ all. AreGathered servers.items controllers.items all.controllers.items) }
{
    let to_controllers = count_queues(alloc, &servers, &controllers)?;
    let to_servers = count_queues(alloc, &controllers, &servers)?;
    let of_servers = apart(alloc, servers)?;
    let of_controllers = apart(alloc, controllers)?;
    Ok(Gathered {
        servers: gather_rows(of_servers.inboxes, of_controllers.rows),
        controllers: gather_rows(of_controllers.inboxes, of_servers.rows),
        to_controllers,
        to_servers,
    })
}

// The inboxes of the nodes of one kind, and the posts of each.
#[derive(Drop)]
struct Parts {
    inboxes: Vec<Inbox>,
    rows: Vec<Items<Post>>,
}

// Takes each node's inbox and its posts apart.
fn apart(alloc: Global, nodes: Vec<NodeLinks>) -> Result<Parts, AllocError>
    ensures inboxes { IfOk result (λ parts. parts.inboxes.items ≡ inboxes_of nodes.items) }
    ensures rows { IfOk result (λ parts. parts.rows.items ≡ posts_of nodes.items) }
{
    let mut inboxes = Vec::with_capacity(alloc, nodes.len())?;
    let mut rows = Vec::with_capacity(alloc, nodes.len())?;
    for node in nodes {
        inboxes.push(node.inbox)?;
        rows.push(Items::of(node.posts))?;
    }
    Ok(Parts { inboxes, rows })
}

// The inboxes after the posts of each sender went to those of their receivers, of one sender after the other.
fn gather_rows(mut inboxes: Vec<Inbox>, rows: Vec<Items<Post>>) -> Vec<Inbox>
    requires some { 1 ≤ length rows.items }
    requires lines { All (λ row. map (λ post. post.line) row
        ≡ map (λ inbox. inbox.line) inboxes.items) rows.items }
    ensures inboxes { result.items ≡ onto_all gathering inboxes.items rows.items }
    ensures rightly { All TookRightly result.items }
{
    for row in rows {
        gather_row(&mut inboxes, row.into_vec());
    }
    inboxes
}

// Gives each of the posts of one sender to the inbox of its receiver.
fn gather_row(inboxes: &mut [Inbox], mut row: Vec<Post>)
    requires { map (λ post. post.line) row.items ≡ map (λ inbox. inbox.line) inboxes.old }
    ensures inboxes { inboxes.new ≡ onto gathering inboxes.old row.items }
    ensures rightly { All TookRightly inboxes.new }
{
    while let Some(post) = row.pop() {
        inboxes[row.len()].gather(post);
    }
}
