ghost use Rattle.std.specs.Prelude.{◌≡◌};
ghost use Rattle.rt_agg.specs.declared.pick_refused.PickRefused.TheVariants.{Memory};

use std::alloc::AllocError;
use thiserror::Error;

/// Why groups of a query weren't picked from others.
#[derive(Clone, Copy, Debug, PartialEq, Eq, Error)]
pub enum PickRefused {
    /// The others don't tell of the query's groups.
    #[error("the groups don't tell of the query's")]
    Untold,
    /// Memory ran out.
    #[error("out of memory")]
    Memory,
}

impl From<AllocError> for PickRefused {
    ghost from_gives = { λ _ e. e ≡ Memory };

    fn from(_: AllocError) -> PickRefused {
        PickRefused::Memory
    }
}
