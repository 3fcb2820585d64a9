ghost use Rattle.std.specs.Prelude.{◌≡◌};
ghost use Rattle.rt_entry.specs.declared.refused.ServerRefused.TheVariants.{Memory};
ghost use Rattle.rt_entry.specs.declared.refused.ServeRefused.TheVariants.{Memory as ServeMemory};
ghost use Rattle.rt_entry.specs.Calls.{answered_as};

use rt_base::{Header, Offset};
use rt_replica::ReplicaRefused;
use std::alloc::AllocError;
use thiserror::Error;

/// Why a call of a server was refused.
#[derive(Clone, Copy, Debug, PartialEq, Eq, Error)]
pub enum ServerRefused {
    /// The segment has no such step.
    #[error("the segment has no such step")]
    NotDue,
    /// The store or the deep store failed.
    #[error("a store failed")]
    StoreFault,
    /// Nothing stands at the path of the commit, or no file with the header that its metadata names and the table's
    /// columns.
    #[error("the file isn't that of the committed segment")]
    BadFile {
        /// What the metadata names.
        wanted: Header,
        /// The header of what stands there, where that is a file.
        found: Option<Header>,
    },
    /// Memory ran out.
    #[error("out of memory")]
    Memory,
}

impl From<AllocError> for ServerRefused {
    ghost from_gives = { λ _ e. e ≡ Memory };

    fn from(_: AllocError) -> ServerRefused {
        ServerRefused::Memory
    }
}

/// Why a piece wasn't served.
#[derive(Clone, Copy, Debug, PartialEq, Eq, Error)]
pub enum ServeRefused {
    /// The server doesn't hold the piece; it holds the segment up to an offset, where it holds it.
    #[error("the piece isn't held")]
    NotServed {
        /// The end that is held.
        reached: Option<Offset>,
    },
    /// Memory ran out.
    #[error("out of memory")]
    Memory,
}

impl From<AllocError> for ServeRefused {
    ghost from_gives = { λ _ e. e ≡ ServeMemory };

    fn from(_: AllocError) -> ServeRefused {
        ServeRefused::Memory
    }
}

/// A replica's answer, as its server gives it.
pub(crate) fn answered_as<X>(answer: Result<X, ReplicaRefused>) -> Result<X, ServerRefused>
    ensures { result ≡ answered_as answer }
{
    match answer {
        Ok(x) => Ok(x),
        Err(ReplicaRefused::NotDue) => Err(ServerRefused::NotDue),
        Err(ReplicaRefused::Memory) => Err(ServerRefused::Memory),
    }
}
