ghost use Rattle.std.specs.Prelude.{◌≡◌};
ghost use Rattle.rt_store.specs.declared.refused.StoreRefused.TheVariants.{Memory};

use std::alloc::AllocError;
use thiserror::Error;

/// Why a call of the store was refused.
#[derive(Clone, Copy, Debug, PartialEq, Eq, Error)]
pub enum StoreRefused {
    /// The node isn't there.
    #[error("the node isn't there")]
    NoNode,
    /// The node is there already, at this version.
    #[error("the node is there already, at version {found}")]
    Exists { found: u64 },
    /// The node has another version than the one that was read.
    #[error("the node has version {found}, and not {expected}")]
    VersionChanged { expected: u64, found: u64 },
    /// A fault; the write was carried out wholly or not at all.
    #[error("the store failed")]
    Failed,
    /// Out of memory; nothing was written.
    #[error("out of memory")]
    Memory,
}

impl From<AllocError> for StoreRefused {
    ghost from_gives = { λ _ refused. refused ≡ Memory };

    fn from(_error: AllocError) -> StoreRefused {
        StoreRefused::Memory
    }
}
