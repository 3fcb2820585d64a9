//! What is tried on copies of a cluster: a segment's file fetched from a peer, and a rebalance rehearsed.
//!
//! A world is only read here. [`peer`] says which other server would give a segment's file to one that has lost the deep
//! store's; [`Rehearsing`] keeps the plan by which the segments would move to a number of servers, and goes through it.
#![tactic(auto)]

mod going;
mod laws;
mod nodes;
mod peer_file;
mod peering;
mod planned;
mod planning;
mod rehearsing;
mod server_peer;
mod stepped;
mod told;

pub use laws::{a_server_with_a_loaded_file_is_a_right_peer, what_is_rehearsed_keeps_enough};
pub use peer_file::PeerFile;
pub use peering::peer;
pub use planned::Planned;
pub use rehearsing::Rehearsing;
pub use stepped::Stepped;
