ghost use Rattle.std.specs.Prelude.{◌≡◌, ◌<◌, ◌≤◌, ◌^◌, IfOk, length};
ghost use Rattle.rt_live_join.specs.Showing.{Shows};
ghost use Rattle.rt_live_links.specs.Gathered.{AreEnds};

use crate::hearing::heard_by;
use rt_lists::Items;
use rt_live_links::{Gathered, NodeLinks, gather_all};
use rt_live_output::{Heard, Queue};
use std::alloc::{AllocError, Global};

/// What nodes that post can show.
#[derive(Drop)]
pub(crate) struct Shown {
    pub(crate) heard: Items<Items<Heard>>,
    pub(crate) to_controllers: Items<Items<Queue>>,
    pub(crate) to_servers: Items<Items<Queue>>,
}

/// Gathers each post into the inbox of its receiver, and counts the queues. With `journal` it has what each controller
/// heard. Fails where memory is refused, or was refused to a controller for its journal.
pub(crate) fn show(
    alloc: Global,
    journal: bool,
    servers: Vec<NodeLinks>,
    controllers: Vec<NodeLinks>,
    heard: Vec<Option<Items<Heard>>>,
) -> Result<Shown, AllocError>
    requires some { (1 ≤ length servers.items) × (1 ≤ length controllers.items) }
    requires few { (length servers.items < 2 ^ 32) × (length controllers.items < 2 ^ 32) }
    requires servers { AreEnds controllers.items servers.items }
    requires controllers { AreEnds servers.items controllers.items }
    ensures { IfOk result (Shows journal servers.items controllers.items heard.items) }
{
    let gathered = gather_all(alloc, servers, controllers)?;
    let heard = heard_by(alloc, journal, heard)?;
    Ok(with_queues(heard, gathered))
}

// With the queues as they were gathered.
fn with_queues(heard: Items<Items<Heard>>, gathered: Gathered) -> Shown
    ensures { result ≡ record {
      heard = heard;
      to_controllers = gathered.to_controllers;
      to_servers = gathered.to_servers;
    } }
{
    Shown {
        heard,
        to_controllers: gathered.to_controllers,
        to_servers: gathered.to_servers,
    }
}
