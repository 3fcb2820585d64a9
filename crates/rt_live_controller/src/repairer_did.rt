use rt_base::{Moment, Partition};
use rt_repair::RepairStep;
use std::alloc::AllocError;

/// What the repairer did.
#[derive(Drop)]
pub enum RepairerDid {
    /// It began the repair of a partition.
    Began {
        partition: Partition,
    },
    /// It made the next step of its repair at this moment. Its front then showed so many writes behind the starting
    /// contents.
    Stepped {
        now: Moment,
        result: Result<RepairStep, AllocError>,
        told: u64,
    },
}
