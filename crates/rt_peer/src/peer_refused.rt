ghost use Rattle.std.specs.Prelude.{◌≡◌};
ghost use Rattle.rt_peer.specs.Fetching.{number_of};

use thiserror::Error;

/// Why no file was fetched.
#[derive(Clone, Copy, Debug, PartialEq, Eq, Error)]
pub enum PeerRefused {
    /// The deep store and every peer answered, and no answer is the file.
    #[error("the file is nowhere")]
    Nowhere,
    /// The deep store and every peer was asked, no answer is the file, and one of them met a fault.
    #[error("the file wasn't found, and a call failed")]
    Faulted,
    /// Out of memory.
    #[error("out of memory")]
    Memory,
}

impl PeerRefused {
    /// The number by which a refusal is told; want of memory has none.
    pub fn number(self) -> Option<u32>
        ensures { result ≡ number_of self }
    {
        match self {
            PeerRefused::Nowhere => Some(1),
            PeerRefused::Faulted => Some(2),
            PeerRefused::Memory => None,
        }
    }
}
