ghost use Rattle.std.specs.Prelude.{◌≡◌, IfOk, OnOk};
ghost use Rattle.rt_live_join.specs.Left.{IsControllerLeft};
ghost use Rattle.rt_live_join.specs.Parted.{AddsNode, AreControllersLeft, controller_left, links_of_controller};

use crate::parts::Parts;
use crate::placed::is_placed;
use crate::waiting::wait_unless;
use rt_ground::Naming;
use rt_link::never;
use rt_lists::Items;
use rt_live_controller::{ControllerEnded, ControllerSeat};
use rt_live_links::NodeLinks;
use rt_live_names::Cluster;
use rt_live_output::Heard;
use rt_model::Setup;
use std::alloc::{AllocError, Global};
use std::sync::Wait;

/// What each controller has left, by its number. There is one for each number, so that it never waits. Fails only where
/// memory is refused.
pub(crate) fn ended_controllers<R: Wait + Copy, J: Naming, K: Cluster>(
    rt: &R,
    alloc: Global,
    setup: &Setup,
    seats: Vec<ControllerSeat<R, J, K>>,
) -> Result<Parts<R, J, Option<Items<Heard>>>, AllocError>
    requires { setup.now ≡ K.names.setup }
    ensures { IfOk result (AreControllersLeft K.names) }
{
    if seats.len() != setup.controllers as usize {
        return never(rt);
    }
    let mut parts = Parts::with_room(alloc, seats.len())?;
    for seat in seats {
        let controller = ended_controller(rt, alloc, setup, parts.links.len(), seat);
        add_controller(&mut parts, controller)?;
    }
    Ok(parts)
}

// What the controller of this number has left.
fn ended_controller<R: Wait + Copy, J: Naming, K: Cluster>(
    rt: &R,
    alloc: Global,
    setup: &Setup,
    number: usize,
    seat: ControllerSeat<R, J, K>,
) -> ControllerEnded<R, J>
    requires { setup.now ≡ K.names.setup }
    ensures { IsControllerLeft K.names number (controller_left result) }
{
    let controller = seat.into_ended(alloc);
    let placed = is_placed(
        controller.number,
        number,
        controller.posts.len(),
        setup.servers,
    );
    wait_unless(rt, placed);
    controller
}

// Adds what a controller has left, but for its machines and its diary.
fn add_controller<R: Copy, J: Naming>(
    parts: &mut Parts<R, J, Option<Items<Heard>>>,
    ended: ControllerEnded<R, J>,
) -> Result<(), AllocError>
    ensures { OnOk result (AddsNode parts.old parts.new ended.caller (links_of_controller ended) ended.heard) }
{
    let ControllerEnded {
        caller,
        inbox,
        posts,
        heard,
        controller,
        diary,
        ..
    } = ended;
    drop(controller);
    drop(diary);
    parts.add(caller, NodeLinks { inbox, posts }, heard)
}
