ghost use Rattle.std.specs.Prelude.{◌≡◌};
ghost use Rattle.rt_peer.specs.declared.peer_fault.PeerFault.TheVariants.{Memory};

use std::alloc::AllocError;
use thiserror::Error;

/// Why a peer gave no answer.
#[derive(Clone, Copy, Debug, PartialEq, Eq, Error)]
pub enum PeerFault {
    /// A fault, and the count rose.
    #[error("the peer failed")]
    Failed,
    /// Out of memory.
    #[error("out of memory")]
    Memory,
}

impl From<AllocError> for PeerFault {
    ghost from_gives = { λ _ fault. fault ≡ Memory };

    fn from(_error: AllocError) -> PeerFault {
        PeerFault::Memory
    }
}
