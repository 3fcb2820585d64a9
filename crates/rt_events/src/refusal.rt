ghost use Rattle.std.specs.Prelude.{◌≡◌};
ghost use Rattle.rt_events.specs.declared.refusal.Refusal.TheVariants.{Memory};

use rt_base::Which;
use std::alloc::AllocError;

/// Why an event did not happen, numbered from 1 in this order. Want of memory comes last.
#[derive(Clone, Copy, Debug, PartialEq, Eq)]
pub enum Refusal {
    NoSuchMessage,
    /// A server, controller or partition isn't below its count.
    NoSuchNode,
    NodeDown,
    /// The event's condition isn't met.
    NothingToDo,
    Limit(Which),
    Memory,
}

impl From<AllocError> for Refusal {
    ghost from_gives = { λ _ refusal. refusal ≡ Memory };

    fn from(_: AllocError) -> Refusal {
        Refusal::Memory
    }
}
