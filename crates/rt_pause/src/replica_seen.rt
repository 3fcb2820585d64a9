use rt_base::{Instance, Offset, Partition, Sequence};
use rt_model::ReplicaState;

/// A replica of a server, as it stands.
#[derive(Clone, Copy, Debug, PartialEq, Eq)]
pub struct ReplicaSeen {
    pub instance: Instance,
    pub partition: Partition,
    pub sequence: Sequence,
    pub state: ReplicaState,
    /// The offset of the next message that it takes.
    pub cur: Offset,
}
