use crate::nodes::Nodes;
use rt_ground::{Ground, Naming};
use rt_live_names::Cluster;

/// A cluster that is founded.
#[derive(Drop)]
pub struct Founded<R: Copy, J: Naming, K: Cluster> {
    pub ground: Ground<R, J>,
    pub nodes: Nodes<R, J, K>,
}
