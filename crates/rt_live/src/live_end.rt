use rt_base::Offset;

/// What a cluster has come to.
#[derive(Drop)]
pub struct LiveEnd {
    /// The end up to which each partition is committed, which is the number of its messages.
    pub ends: Vec<Offset>,
}
