//! The queues between the nodes of a running cluster: each server has one to each controller, and each controller one
//! to each server. They are made together, and when all nodes have ended each post goes to the inbox of its receiver,
//! which then knows that it took a beginning of what was accepted of each sender, and nothing else.
#![tactic(auto)]

mod all_links;
mod counting;
mod dealing;
mod gathering;
mod laws;
mod linking;
mod node_links;

pub use all_links::Links;
pub use gathering::{Gathered, gather_all};
pub use laws::{
    a_queue_counts_what_its_ends_did, each_sender_has_a_queue_to_each_receiver,
    named_ends_can_be_gathered, new_links_can_be_gathered, the_links_of_all_inboxes_are_found,
};
pub use linking::links;
pub use node_links::NodeLinks;
