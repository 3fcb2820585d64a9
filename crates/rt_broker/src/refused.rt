ghost use Rattle.std.specs.Prelude.{◌≡◌};
ghost use Rattle.rt_broker.specs.declared.refused.BrokerRefused.TheVariants.{Memory};

use std::alloc::AllocError;
use thiserror::Error;

/// Why a call of an asked query was refused.
#[derive(Clone, Copy, Debug, PartialEq, Eq, Error)]
pub enum BrokerRefused {
    /// It isn't time for the call: the partition was tried already, the piece isn't to be asked of that server, or
    /// something is still to be asked before the answer.
    #[error("the call isn't due")]
    NotDue,
    /// The store met a fault, and its count rose.
    #[error("the store failed")]
    StoreFault,
    /// Out of memory; nothing was noted.
    #[error("out of memory")]
    Memory,
}

impl From<AllocError> for BrokerRefused {
    ghost from_gives = { λ _ refused. refused ≡ Memory };

    fn from(_error: AllocError) -> BrokerRefused {
        BrokerRefused::Memory
    }
}
