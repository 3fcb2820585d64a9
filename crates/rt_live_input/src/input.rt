use crate::chaos::Chaos;
use rt_ground::Appended;
use rt_lists::Items;
use rt_model::{Query, Setup};

/// What a running cluster is given.
#[derive(Drop)]
pub struct Input {
    pub setup: Setup,
    pub chaos: Chaos,
    /// The messages that come to the stream, in their order.
    pub rows: Items<Appended>,
    /// The queries that are asked, in their order.
    pub queries: Items<Query>,
}
