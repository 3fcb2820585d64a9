use rt_base::{ControllerId, Instance, Partition, Sequence};
use rt_lists::Bytes;
use rt_model::Query;

/// What can happen to a cluster: one step of one of its nodes, or of what lies outside them.
#[derive(Drop)]
pub enum Event {
    /// A message comes to the end of a partition.
    Produce {
        partition: Partition,
        message: Bytes,
    },
    /// The clock moves on.
    Tick {
        millis: u64,
    },
    /// A controller begins to believe that it leads, or ceases to.
    Lead {
        controller: ControllerId,
        on: bool,
    },
    /// A replica takes at most `max` messages; none is no event.
    Consume {
        instance: Instance,
        partition: Partition,
        sequence: Sequence,
        max: u32,
    },
    /// A consuming replica is told to end its segment where it stands.
    Force {
        instance: Instance,
        partition: Partition,
        sequence: Sequence,
    },
    /// A replica gives its segment up.
    Stop {
        instance: Instance,
        partition: Partition,
        sequence: Sequence,
    },
    /// A replica seals its rows.
    Build {
        instance: Instance,
        partition: Partition,
        sequence: Sequence,
    },
    /// A replica sends the request that is due.
    Report {
        instance: Instance,
        partition: Partition,
        sequence: Sequence,
    },
    /// A committing replica asks for more time.
    Extend {
        instance: Instance,
        partition: Partition,
        sequence: Sequence,
        millis: u64,
    },
    /// A controller takes a request, which stays there to be taken again.
    Deliver {
        message: u64,
        controller: ControllerId,
    },
    /// A controller makes one step of a job.
    Job {
        controller: ControllerId,
        job: u64,
    },
    /// The sender of a request takes its answer, which stays there to be taken again.
    Reply {
        message: u64,
    },
    CrashServer {
        instance: Instance,
    },
    CrashController {
        controller: ControllerId,
    },
    RestartServer {
        instance: Instance,
    },
    RestartController {
        controller: ControllerId,
    },
    /// A server reads the ideal state.
    See {
        instance: Instance,
    },
    /// A server does what the ideal state wants of a segment.
    Transit {
        instance: Instance,
        partition: Partition,
        sequence: Sequence,
    },
    /// A server gets the file of a segment.
    Download {
        instance: Instance,
        partition: Partition,
        sequence: Sequence,
    },
    /// A controller makes one step of a partition's repair.
    Repair {
        controller: ControllerId,
        partition: Partition,
    },
    /// A controller makes one step of the retirement of a partition's old segments.
    Retain {
        controller: ControllerId,
        partition: Partition,
    },
    /// The next call of the store fails, its write carried out where it is kept.
    FaultStore {
        kept: bool,
    },
    /// The next call of the deep store fails, its write carried out where it is kept.
    FaultDeep {
        kept: bool,
    },
    /// The broker is asked a query.
    Ask {
        query: Query,
    },
    /// The broker reads the plan of a partition.
    Route {
        query: u32,
        partition: Partition,
    },
    /// The broker asks a server for a piece of a plan.
    Piece {
        query: u32,
        partition: Partition,
        sequence: Sequence,
        instance: Instance,
    },
    /// The broker answers a query.
    Answer {
        query: u32,
    },
    /// The metadata of a segment is looked at.
    ShowMeta {
        partition: Partition,
        sequence: Sequence,
    },
    /// The ideal state is looked at.
    ShowIdeal,
}
