ghost use Rattle.std.specs.Prelude.{◌≡◌};
ghost use Rattle.rt_hybrid.specs.Refused.{number_of};
ghost use Rattle.rt_hybrid.specs.declared.hybrid_refused.HybridRefused.TheVariants.{Memory};

use std::alloc::AllocError;

/// Why a call of a hybrid table is refused.
#[derive(Clone, Copy, Debug, PartialEq, Eq)]
pub enum HybridRefused {
    /// The named time column isn't a LONG or TIMESTAMP column.
    NoTime,
    /// The text is no array of 1 to 10,000 objects each of which is a row without a text above 65,536 bytes.
    NotRows,
    /// Memory ran out.
    Memory,
}

impl HybridRefused {
    /// The number by which a refusal is reported; want of memory has none.
    pub fn number(self) -> Option<u32>
        ensures { result ≡ number_of self }
    {
        match self {
            HybridRefused::NoTime => Some(1),
            HybridRefused::NotRows => Some(2),
            HybridRefused::Memory => None,
        }
    }
}

impl From<AllocError> for HybridRefused {
    ghost from_gives = { λ _ e. e ≡ Memory };

    fn from(_refused: AllocError) -> HybridRefused {
        HybridRefused::Memory
    }
}
