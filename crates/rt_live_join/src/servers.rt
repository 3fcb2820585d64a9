ghost use Rattle.std.specs.Prelude.{◌≡◌, IfOk, OnOk};
ghost use Rattle.rt_live_join.specs.Left.{IsServerLeft};
ghost use Rattle.rt_live_join.specs.Parted.{AddsNode, AreServersLeft, links_of_server, server_left};

use crate::parts::Parts;
use crate::placed::is_placed;
use crate::waiting::wait_unless;
use rt_ground::Naming;
use rt_link::never;
use rt_live_links::NodeLinks;
use rt_live_names::Cluster;
use rt_live_server::{PieceKeeper, ServerEnded, ServerSeat};
use rt_model::Setup;
use std::alloc::{AllocError, Global};
use std::sync::{Mutex, Wait};

/// What each server has left, by its number. There is one for each number, so that it never waits. Fails only where
/// memory is refused.
pub(crate) fn ended_servers<R: Wait + Copy, J: Naming, K: Cluster>(
    rt: &R,
    alloc: Global,
    setup: &Setup,
    seats: Vec<Mutex<ServerSeat<R, J, K>>>,
) -> Result<Parts<R, J, PieceKeeper>, AllocError>
    requires { setup.now ≡ K.names.setup }
    ensures { IfOk result (AreServersLeft K.names J.starting) }
{
    if seats.len() != setup.servers as usize {
        return never(rt);
    }
    let mut parts = Parts::with_room(alloc, seats.len())?;
    for seat in seats {
        let server = ended_server(rt, setup, parts.links.len(), seat.into_inner());
        add_server(&mut parts, server)?;
    }
    Ok(parts)
}

// What the server of this number has left.
fn ended_server<R: Wait + Copy, J: Naming, K: Cluster>(
    rt: &R,
    setup: &Setup,
    number: usize,
    seat: ServerSeat<R, J, K>,
) -> ServerEnded<R, J>
    requires { setup.now ≡ K.names.setup }
    ensures { IsServerLeft K.names J.starting number (server_left result) }
{
    let server = seat.into_ended();
    let placed = is_placed(server.number, number, server.posts.len(), setup.controllers);
    wait_unless(rt, placed);
    server
}

// Adds what a server has left, but for its table and its diary.
fn add_server<R: Copy, J: Naming>(
    parts: &mut Parts<R, J, PieceKeeper>,
    ended: ServerEnded<R, J>,
) -> Result<(), AllocError>
    ensures { OnOk result (AddsNode parts.old parts.new ended.caller (links_of_server ended) ended.pieces) }
{
    let ServerEnded {
        caller,
        inbox,
        posts,
        pieces,
        server,
        diary,
        ..
    } = ended;
    drop(server);
    drop(diary);
    parts.add(caller, NodeLinks { inbox, posts }, pieces)
}
