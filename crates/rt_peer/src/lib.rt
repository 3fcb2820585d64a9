//! A committed segment's file from the deep store, or else from a peer.
//!
//! [`fetch`] asks the deep store for the file that a segment's metadata names, and then each peer in order for its copy
//! of the segment. It takes the first bytes that are the file of a segment with the partition, the sequence, the range,
//! the number of rows and the digest that the metadata names. All works on copies: a peer is only read.
#![tactic(auto)]

mod asking;
mod fetching;
mod files;
mod got;
mod laws;
mod peer;
mod peer_fault;
mod peer_refused;

pub use fetching::fetch;
pub use got::Got;
pub use laws::{
    a_refusal_tells_of_each_count, a_right_peers_file_is_the_one_file,
    no_fetch_passes_a_right_peer, no_fetch_passes_the_deep_stores_file,
    what_is_fetched_has_its_header,
};
pub use peer::Peer;
pub use peer_fault::PeerFault;
pub use peer_refused::PeerRefused;
