use rt_segment::Sealed;

/// The segment that was fetched, and where from.
#[derive(Drop)]
pub struct Got {
    /// The place of the peer among those that were asked, counted from 0; None where it was the deep store.
    pub from: Option<u32>,
    pub sealed: Sealed,
}
