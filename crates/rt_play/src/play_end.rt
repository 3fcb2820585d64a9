/// The end of a run whose script was good.
#[derive(Clone, Copy, Debug, PartialEq, Eq)]
pub struct PlayEnd {
    /// The lines of the script behind its header, each of which has its line in the report.
    pub lines: u64,
}
