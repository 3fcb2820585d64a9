ghost use Rattle.std.specs.Prelude.{◌≡◌};
ghost use Rattle.rt_consumer.specs.declared.refused.ReplicaRefused.TheVariants.{Memory};

use std::alloc::AllocError;
use thiserror::Error;

/// Why a call of a replica was refused.
#[derive(Clone, Copy, Debug, PartialEq, Eq, Error)]
pub enum ReplicaRefused {
    /// The replica's state has no such step.
    #[error("the replica's state has no such step")]
    NotDue,
    /// Memory ran out.
    #[error("out of memory")]
    Memory,
}

impl From<AllocError> for ReplicaRefused {
    ghost from_gives = { λ _ e. e ≡ Memory };

    fn from(_: AllocError) -> ReplicaRefused {
        ReplicaRefused::Memory
    }
}
