ghost use Rattle.std.specs.Prelude.{◌≡◌};
ghost use Rattle.rt_grammar.specs.declared.stop.Stop.TheVariants.{Memory};

use std::alloc::AllocError;

/// Why a token isn't read.
#[derive(Clone, Copy, Debug, PartialEq, Eq)]
pub(crate) enum Stop {
    /// No query has it in this place.
    Stuck,
    /// It opens one parenthesis or NOT too many.
    Deep,
    /// Memory ran out.
    Memory,
}

impl From<AllocError> for Stop {
    ghost from_gives = { λ _ e. e ≡ Memory };

    fn from(_refused: AllocError) -> Stop {
        Stop::Memory
    }
}
