ghost use Rattle.std.specs.Prelude.{◌≡◌};
ghost use Rattle.rt_deep.specs.declared.refused.DeepRefused.TheVariants.{Memory};

use std::alloc::AllocError;
use thiserror::Error;

/// Why a call of the deep store was refused.
#[derive(Clone, Copy, Debug, PartialEq, Eq, Error)]
pub enum DeepRefused {
    /// Nothing stands at the path.
    #[error("nothing stands at the path")]
    Absent,
    /// Other bytes stand at the path: the SHA-256 of those that are kept, and of those that were offered.
    #[error("other bytes stand at the path")]
    OtherBytes { kept: [u8; 32], offered: [u8; 32] },
    /// A fault; the put was carried out wholly or not at all.
    #[error("the deep store failed")]
    Failed,
    /// Out of memory; nothing was put.
    #[error("out of memory")]
    Memory,
}

impl From<AllocError> for DeepRefused {
    ghost from_gives = { λ _ refused. refused ≡ Memory };

    fn from(_error: AllocError) -> DeepRefused {
        DeepRefused::Memory
    }
}
