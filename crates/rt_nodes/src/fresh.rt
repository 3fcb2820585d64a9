//! The nodes that there are at first.
ghost use Rattle.std.specs.Prelude.{◌≡◌, ◌<◌, IfOk};
ghost use Rattle.rt_model.specs.Setup.{IsSetup};
ghost use Rattle.rt_nodes.specs.Fresh.{fresh_servers, fresh_controller, fresh_controllers, fresh_upkeep};

use crate::{ControllerNode, ServerNode, Upkeep};
use rt_base::{ControllerId, Instance};
use rt_controller::Controller;
use rt_lists::Items;
use rt_model::Setup;
use rt_server::Server;
use std::alloc::{AllocError, Global};

/// The servers of a cluster, all up and fresh. Fails only where memory is refused.
#[tactic(auto, using(crate::proofs::Starting::servers_more))]
pub fn first_servers(alloc: Global, setup: &Setup) -> Result<Items<ServerNode>, AllocError>
    requires { IsSetup setup.now }
    ensures { IfOk result (λ servers. servers ≡ fresh_servers setup.now setup.now.servers) }
{
    let mut servers = Items::new(alloc);
    for number in 0..setup.servers {
        let server = Server::make(alloc, setup, Instance(number))?;
        servers.push(ServerNode { server, up: true })?;
    }
    Ok(servers)
}

/// The controllers of a cluster, all up, of which the first alone believes that it leads. Fails only where memory is
/// refused.
#[tactic(auto, using(crate::proofs::Starting::controllers_more))]
pub fn first_controllers(alloc: Global, setup: &Setup) -> Result<Items<ControllerNode>, AllocError>
    requires { IsSetup setup.now }
    ensures { IfOk result (λ controllers. controllers ≡ fresh_controllers setup.now setup.now.controllers) }
{
    let mut controllers = Items::new(alloc);
    for number in 0..setup.controllers {
        controllers.push(first_controller(alloc, setup, number)?)?;
    }
    Ok(controllers)
}

fn first_controller(alloc: Global, setup: &Setup, number: u32) -> Result<ControllerNode, AllocError>
    requires { IsSetup setup.now }
    ensures { IfOk result (λ node. node ≡ fresh_controller setup.now number) }
{
    let mut controller = Controller::make(alloc, ControllerId(number), setup)?;
    if number == 0 {
        controller.believe(true);
    }
    Ok(ControllerNode {
        controller,
        up: true,
        upkeep: first_upkeep(alloc, setup.partitions)?,
    })
}

/// Nothing is under way for any partition.
fn first_upkeep(alloc: Global, partitions: u32) -> Result<Items<Upkeep>, AllocError>
    ensures { IfOk result (λ upkeep. upkeep ≡ fresh_upkeep partitions) }
{
    let mut upkeep = Items::new(alloc);
    for _partition in 0..partitions {
        upkeep.push(Upkeep {
            repair: None,
            retirement: None,
        })?;
    }
    Ok(upkeep)
}
