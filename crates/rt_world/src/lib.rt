//! All nodes of a cluster, event by event.
//!
//! A world is one record of everything that there is: the stream, the store, the deep store, what was sent, and each
//! node. An event goes to one method of one node, which makes one call of a store at most, and every world is safe.
#![tactic(auto)]

mod applying;
mod ends;
mod leaders;
mod reading;
mod steps;
mod world;

pub use rt_events::{Event, Outcome, Refusal};
pub use rt_nodes::{ControllerNode, ServerNode, Upkeep};
pub use rt_state::{Cost, Counts, State};
pub use world::World;
