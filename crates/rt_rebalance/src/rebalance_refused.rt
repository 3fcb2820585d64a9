ghost use Rattle.std.specs.Prelude.{◌≡◌};
ghost use Rattle.rt_rebalance.specs.Refused.{number_of};
ghost use Rattle.rt_rebalance.specs.declared.rebalance_refused.RebalanceRefused.TheVariants.{Memory};

use rt_base::{Instance, Partition, Sequence};
use std::alloc::{AllocError, AllocFailed};

/// Why there is no plan, or why a rehearsal doesn't go on.
#[derive(Clone, Copy, Debug, PartialEq, Eq)]
pub enum RebalanceRefused {
    /// A moved segment has not as many instances in both states.
    Replicas(Partition, Sequence),
    /// A moved segment has at most as many instances as are to be kept.
    Keep(Partition, Sequence),
    /// An instance that is ONLINE in the present state hasn't loaded its segment.
    NotLoaded(Partition, Sequence, Instance),
    /// The present state is the last one.
    Ended,
    /// Memory ran out.
    Memory,
}

impl RebalanceRefused {
    /// The number by which a refusal is reported; want of memory has none.
    pub fn number(self) -> Option<u32>
        ensures { result ≡ number_of self }
    {
        match self {
            RebalanceRefused::Replicas(_, _) => Some(1),
            RebalanceRefused::Keep(_, _) => Some(2),
            RebalanceRefused::NotLoaded(_, _, _) => Some(3),
            RebalanceRefused::Ended => Some(4),
            RebalanceRefused::Memory => None,
        }
    }
}

impl From<AllocError> for RebalanceRefused {
    ghost from_gives = { λ _ e. e ≡ Memory };

    fn from(_refused: AllocError) -> RebalanceRefused {
        RebalanceRefused::Memory
    }
}

impl<T: Drop> From<AllocFailed<T>> for RebalanceRefused {
    ghost from_gives = { λ _ e. e ≡ Memory };

    fn from(_refused: AllocFailed<T>) -> RebalanceRefused {
        RebalanceRefused::Memory
    }
}
