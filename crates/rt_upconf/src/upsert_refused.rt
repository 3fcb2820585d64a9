ghost use Rattle.std.specs.Prelude.{◌≡◌};
ghost use Rattle.rt_upconf.specs.Refused.{number_of};
ghost use Rattle.rt_upconf.specs.declared.upsert_refused.UpsertRefused.TheVariants.{Memory};

use std::alloc::AllocError;

/// Why upsert settings are refused: the first of these, in this order, that applies.
#[derive(Clone, Copy, Debug, PartialEq, Eq)]
pub enum UpsertRefused {
    /// `upsertConfig` is no object.
    NotObject,
    /// There is no mode, or another than `NONE` and `FULL`.
    Mode,
    /// `primaryKeyColumns` is no array of at least one text.
    NoKeys,
    /// `comparisonColumns` is no array of at most one text, or it names none and `comparisonColumn` is no text.
    Comparison,
    /// A key or the comparison column is no column, or no text names a comparison column.
    NoColumn,
    /// The comparison column isn't INT, LONG or TIMESTAMP.
    WrongType,
    /// Memory ran out.
    Memory,
}

impl UpsertRefused {
    /// The number by which a refusal of the settings is reported; want of memory has none.
    pub fn number(self) -> Option<u32>
        ensures { result ≡ number_of self }
    {
        match self {
            UpsertRefused::NotObject => Some(1),
            UpsertRefused::Mode => Some(2),
            UpsertRefused::NoKeys => Some(3),
            UpsertRefused::Comparison => Some(4),
            UpsertRefused::NoColumn => Some(5),
            UpsertRefused::WrongType => Some(6),
            UpsertRefused::Memory => None,
        }
    }
}

impl From<AllocError> for UpsertRefused {
    ghost from_gives = { λ _ e. e ≡ Memory };

    fn from(_refused: AllocError) -> UpsertRefused {
        UpsertRefused::Memory
    }
}
