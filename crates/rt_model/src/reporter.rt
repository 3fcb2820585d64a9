use rt_base::{Instance, Offset};

/// A replica of a segment, as the segment's completion machine knows it.
#[derive(Clone, Copy, Debug, PartialEq, Eq)]
pub struct Reporter {
    pub instance: Instance,
    /// The offset that it reported last, if it has.
    pub note: Option<Offset>,
    /// Whether it stopped, and hasn't reported since.
    pub excluded: bool,
}
