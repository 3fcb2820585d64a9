use crate::Found;
use rt_base::Partition;
use rt_lists::Items;

/// What was found of the present plan of a partition.
#[derive(Drop)]
pub struct View {
    pub partition: Partition,
    pub found: Items<Found>,
}
