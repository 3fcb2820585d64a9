/// The states of a segment's completion.
#[derive(Clone, Copy, Debug, PartialEq, Eq)]
pub enum MachineState {
    PartialConsuming,
    Holding,
    CommitterDecided,
    CommitterNotified,
    CommitterUploading,
    Committing,
    Committed,
    Aborted,
}
