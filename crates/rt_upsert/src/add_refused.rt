ghost use Rattle.std.specs.Prelude.{◌≡◌};
ghost use Rattle.rt_upsert.specs.Refused.{number_of};
ghost use Rattle.rt_upsert.specs.declared.add_refused.AddRefused.TheVariants.{Memory};

use crate::Place;
use std::alloc::{AllocError, AllocFailed};

/// Why a row isn't added.
#[derive(Clone, Copy, Debug, PartialEq, Eq)]
pub enum AddRefused {
    /// A row is held at this place already.
    Taken(Place),
    /// Memory ran out.
    Memory,
}

impl AddRefused {
    /// The number by which a refusal is reported; want of memory has none.
    pub fn number(self) -> Option<u32>
        ensures { result ≡ number_of self }
    {
        match self {
            AddRefused::Taken(_) => Some(1),
            AddRefused::Memory => None,
        }
    }
}

impl From<AllocError> for AddRefused {
    ghost from_gives = { λ _ e. e ≡ Memory };

    fn from(_refused: AllocError) -> AddRefused {
        AddRefused::Memory
    }
}

impl<T: Drop> From<AllocFailed<T>> for AddRefused {
    ghost from_gives = { λ _ e. e ≡ Memory };

    fn from(_refused: AllocFailed<T>) -> AddRefused {
        AddRefused::Memory
    }
}
