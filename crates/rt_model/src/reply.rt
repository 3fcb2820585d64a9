use crate::{MachineState, RequestNumber, SeenMeta};
use rt_base::{Header, Instance, Offset, Partition, Sequence};
use rt_lists::Text;

/// Why a request failed; numbered from 1 in this order.
#[derive(Clone, Copy, Debug, PartialEq, Eq)]
pub enum FailCause {
    /// The machine takes no such request in its state.
    WrongState(MachineState),
    WrongOffset {
        asked: Offset,
        kept: Offset,
    },
    /// Another instance commits.
    NotCommitter(Instance),
    NoSegment,
    VersionChanged {
        expected: u64,
        found: u64,
    },
    StoreFault,
    BadUpload {
        wanted: Header,
        found: Option<Header>,
    },
    /// Each of ten tries found that the ideal state had changed, to these versions.
    IdealChanged([u64; 10]),
    /// The sender isn't assigned to the partition.
    NotReplica,
}

/// What a controller answers.
#[derive(Drop, PartialEq, Eq)]
pub enum ReplyStatus {
    Hold,
    CatchUp(Offset),
    Keep(SeenMeta),
    Discard,
    Commit(Offset),
    NotLeader,
    CommitContinue,
    UploadSuccess(Text),
    CommitSuccess(SeenMeta),
    Processed,
    Failed(FailCause),
}

/// A message from a controller to a replica.
#[derive(Drop, PartialEq, Eq)]
pub struct Reply {
    /// The number of the request that it answers.
    pub number: RequestNumber,
    pub partition: Partition,
    pub sequence: Sequence,
    pub status: ReplyStatus,
}
