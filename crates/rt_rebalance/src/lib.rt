//! Plans by which the segments of a table move to other instances, a few at a time, and their rehearsal.
//!
//! All here works on copies of the ideal state: nothing is offered to the store.
#![tactic(auto)]

mod laws;
mod planning;
mod rebalance_refused;
mod rehearsal;
mod replicas;
mod segments;
mod slot;
mod slots;
mod targets;

pub use laws::{
    enough_instances_are_available, instances_are_available_once_they_have_loaded,
    the_lowest_leave_and_come_first,
};
pub use planning::{plan, plan_to};
pub use rebalance_refused::RebalanceRefused;
pub use rehearsal::Rehearsal;
pub use replicas::Replicas;
pub use targets::target;
