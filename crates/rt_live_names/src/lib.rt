//! What the nodes of a running cluster have in common: the names of what they share, what one has seen of the cluster and can
//! say by itself, the replay of what one did, the posts of a node, how a server is asked, and when a run ends.
#![tactic(auto)]

mod cluster;
mod ends;
mod giver;
mod laws;
mod moments;
mod posts;

pub use cluster::Cluster;
pub use ends::Ends;
pub use giver::Giver;
pub use laws::{
    a_nodes_posts_accept_what_it_sent, a_view_only_grows, what_a_node_has_is_a_view,
    what_was_shown_stays_shown,
};
pub use moments::moment;
pub use posts::Posts;
