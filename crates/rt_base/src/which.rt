ghost use Rattle.std.specs.Prelude.{◌≡◌};
ghost use Rattle.rt_base.specs.Which.{name_of};

/// A limit of what the product takes, by the name that a refusal prints.
#[derive(Clone, Copy, Debug, PartialEq, Eq)]
pub enum Which {
    /// The bytes of a script.
    Input,
    /// The partitions of a table.
    Partitions,
    /// The servers of a cluster.
    Servers,
    /// The controllers of a cluster.
    Controllers,
    /// The replicas of a segment.
    Replication,
    /// The bytes of one message.
    Message,
    /// The events of a run, with what its macros expand to.
    Events,
    /// The bytes of uploads in all requests together.
    Sent,
    /// The queries that are asked and unanswered at once.
    Queries,
    /// The entries of all ideal states of the history together.
    Stored,
    /// The milliseconds at which a cluster starts or stands.
    Moment,
    /// The rows that a generated script produces.
    Rows,
}

impl Which {
    /// The name that a refusal prints.
    pub fn name(self) -> &'static str
        ensures { result.now ≡ name_of self }
    {
        match self {
            Which::Input => "input",
            Which::Partitions => "partitions",
            Which::Servers => "servers",
            Which::Controllers => "controllers",
            Which::Replication => "replication",
            Which::Message => "message",
            Which::Events => "events",
            Which::Sent => "sent",
            Which::Queries => "queries",
            Which::Stored => "stored",
            Which::Moment => "moment",
            Which::Rows => "rows",
        }
    }
}
