ghost use Rattle.std.specs.Prelude.{◌≡◌};
ghost use Rattle.rt_consumer.specs.Consumer.{state_at};
ghost use Rattle.rt_consumer.specs.Requests.{stops_at, builds_at};

use crate::BuiltFile;
use rt_base::Offset;
use rt_lists::Text;
use rt_model::{Reason, ReplicaState, SeenMeta};

/// What a replica that still has its rows by column does with them.
#[derive(Drop)]
pub enum Stage {
    /// It takes messages until the row limit or the time limit.
    InitialConsuming,
    /// It takes messages up to an offset.
    CatchingUp {
        target: Offset,
        reason: Reason,
    },
    /// It waits for what the controller decides.
    Holding(Reason),
    /// It takes messages up to the committed end.
    ConsumingToOnline {
        end: Offset,
        done: SeenMeta,
    },
    /// It has all rows of the committed segment.
    Retaining(SeenMeta),
    /// It commits, and is to build the file.
    Building(Reason),
    /// It commits, and is to ask whether it may upload.
    Starting {
        reason: Reason,
        built: BuiltFile,
    },
    /// It commits, and is to upload.
    Uploading {
        reason: Reason,
        built: BuiltFile,
    },
    /// It commits, and is to end the commit with the path of its upload.
    Ending {
        reason: Reason,
        built: BuiltFile,
        path: Text,
    },
}

impl Stage {
    /// The state that the stage is of.
    pub fn state(&self) -> ReplicaState
        ensures { result ≡ state_at self.now }
    {
        match self {
            Stage::InitialConsuming => ReplicaState::InitialConsuming,
            Stage::CatchingUp { .. } => ReplicaState::CatchingUp,
            Stage::Holding(_) => ReplicaState::Holding,
            Stage::ConsumingToOnline { .. } => ReplicaState::ConsumingToOnline,
            Stage::Retaining(_) => ReplicaState::Retaining,
            Stage::Building(_) => ReplicaState::Committing,
            Stage::Starting { .. } => ReplicaState::Committing,
            Stage::Uploading { .. } => ReplicaState::Committing,
            Stage::Ending { .. } => ReplicaState::Committing,
        }
    }

    /// Whether a replica at this stage can be stopped.
    pub fn stops(&self) -> bool
        ensures { result ≡ stops_at self.now }
    {
        !matches!(self, Stage::Retaining(_))
    }

    /// Whether a replica at this stage is to build its file.
    pub fn builds(&self) -> bool
        ensures { result ≡ builds_at self.now }
    {
        matches!(self, Stage::Retaining(_) | Stage::Building(_))
    }
}
