//! Which controller leads.
ghost use Rattle.std.specs.Prelude.{◌≡◌};
ghost use Rattle.std.specs.List.{position};
ghost use Rattle.rt_world.specs.Reading.{controller_at, leader_in, leading_place, leads, stands};

use rt_base::ControllerId;
use rt_base::limits::LAST_NUMBER;
use rt_nodes::ControllerNode;
use rt_state::State;

/// The lowest controller that is up and believes that it leads; else the lowest that is up.
pub(crate) fn leader(state: &State) -> Option<ControllerId>
    ensures { result ≡ leader_in state.now }
{
    match leading_place(state) {
        Some(place) => controller_at(place),
        None => None,
    }
}

/// The place of the controller that leads.
fn leading_place(state: &State) -> Option<usize>
    ensures { result ≡ leading_place state.now }
{
    let nodes = state.controllers.as_slice();
    match leading_among(nodes) {
        Some(place) => Some(place),
        None => standing_among(nodes),
    }
}

/// The place of the first controller that is up and believes that it leads.
fn leading_among(nodes: &[ControllerNode]) -> Option<usize>
    ensures { result ≡ position leads nodes.now }
{
    nodes.iter().position(|node| node.leads())
}

/// The place of the first controller that is up.
fn standing_among(nodes: &[ControllerNode]) -> Option<usize>
    ensures { result ≡ position stands nodes.now }
{
    nodes.iter().position(|node| node.up)
}

/// The controller at a place.
fn controller_at(place: usize) -> Option<ControllerId>
    ensures { result ≡ controller_at place }
{
    if place > LAST_NUMBER as usize {
        return None;
    }
    Some(ControllerId(place as u32))
}
