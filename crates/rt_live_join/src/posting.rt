ghost use Rattle.std.specs.Prelude.{◌≡◌, IfOk};
ghost use Rattle.rt_live_join.specs.Leaving.{IsPostingLeft};

use crate::controllers::ended_controllers;
use crate::parts::Parts;
use crate::servers::ended_servers;
use rt_ground::Naming;
use rt_lists::Items;
use rt_live_controller::ControllerSeat;
use rt_live_names::Cluster;
use rt_live_output::Heard;
use rt_live_server::{PieceKeeper, ServerSeat};
use rt_model::Setup;
use std::alloc::{AllocError, Global};
use std::sync::{Mutex, Wait};

/// What the nodes left that post: the servers, with the history of what each gave the broker, and the controllers, with
/// what each heard, where it kept a journal.
#[derive(Drop)]
pub(crate) struct Posting<R, J: Naming> {
    pub(crate) servers: Parts<R, J, PieceKeeper>,
    pub(crate) controllers: Parts<R, J, Option<Items<Heard>>>,
}

/// What the nodes have left that post. Fails only where memory is refused.
pub(crate) fn ended_posting<R: Wait + Copy, J: Naming, K: Cluster>(
    rt: &R,
    alloc: Global,
    setup: &Setup,
    servers: Vec<Mutex<ServerSeat<R, J, K>>>,
    controllers: Vec<ControllerSeat<R, J, K>>,
) -> Result<Posting<R, J>, AllocError>
    requires { setup.now ≡ K.names.setup }
    ensures { IfOk result (IsPostingLeft K.names J.starting) }
{
    let servers = ended_servers::<R, J, K>(rt, alloc, setup, servers)?;
    let controllers = ended_controllers::<R, J, K>(rt, alloc, setup, controllers)?;
    Ok(Posting {
        servers,
        controllers,
    })
}
