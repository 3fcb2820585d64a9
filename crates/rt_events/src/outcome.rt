use rt_base::{Instance, Moment, Offset, Partition, Range, Sequence};
use rt_model::{Answer, JobStep, ReplicaState, Reply, Request, Seen};
use rt_repair::{RepairStep, RetireStep};

/// What came of an event, beyond the event's own fields.
#[derive(Drop, PartialEq, Eq)]
pub enum Outcome {
    /// The message's offset.
    Produced(Offset),
    /// What the clock tells now.
    Now(Moment),
    /// There is nothing to tell of it.
    Noted,
    /// How far the replica is now, the rows that it holds, and its state.
    Consumed {
        cur: Offset,
        rows: u32,
        state: ReplicaState,
    },
    /// The replica's state.
    Stands(ReplicaState),
    /// The rows of the sealed file, and the replica's state.
    Built {
        rows: u32,
        state: ReplicaState,
    },
    /// The request, and the number of its message.
    Sent {
        message: u64,
        request: Request,
    },
    /// The answer, and the number of its message.
    Replied {
        message: u64,
        reply: Reply,
    },
    /// The number of the job that the request started.
    Started {
        job: u64,
    },
    /// What the job did, and the number of its answer's message, where it ended.
    Stepped {
        step: JobStep,
        message: Option<u64>,
    },
    /// The replica that took an answer, and its state.
    Took {
        instance: Instance,
        partition: Partition,
        sequence: Sequence,
        state: ReplicaState,
    },
    /// No replica waited for the answer.
    Ignored,
    /// The node is down.
    Down,
    /// The node is up; a server in this incarnation.
    Up {
        incarnation: Option<u64>,
    },
    /// The version of the ideal state that was read.
    SawIdeal(u64),
    /// The rows of the file.
    Loaded(u32),
    /// A store failed.
    Failed,
    Repaired(RepairStep),
    Retired(RetireStep),
    /// The number of the query.
    Asked(u32),
    /// The pieces of the partition's plan.
    Routed(u32),
    /// The offsets that were served.
    Served(Range),
    /// The server doesn't serve the piece.
    NotServed,
    /// The server is down.
    NodeDown,
    Answered(Answer),
    /// The node, where there is one.
    Shown(Option<Seen>),
}
