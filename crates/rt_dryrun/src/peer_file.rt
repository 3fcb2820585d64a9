use rt_base::Instance;

/// A file that a peer would give.
#[derive(Clone, Copy, Debug, PartialEq, Eq)]
pub struct PeerFile {
    /// The server that has it.
    pub from: Instance,
    /// The number of its rows.
    pub rows: u32,
}
