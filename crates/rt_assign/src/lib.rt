//! Which servers hold a partition: a formula of the partition's number alone, so that every node
//! computes the same placement without asking anyone.
#![tactic(auto)]

mod placement;

pub use placement::{replica, replicas, replicas_are_placed};
