ghost use Rattle.rt_peer.specs.Meaning.{Meaning};
ghost use Rattle.rt_peer.specs.Calls.{Copies};

use crate::PeerFault;
use rt_base::{Partition, Sequence};
use rt_lists::Bytes;
use std::alloc::Global;

/// A holder of copies of committed segments' files.
///
/// A peer means what it holds of each segment, where that is told, and a count of faults. What it holds stays as it is,
/// and so does the count, unless it answers `Failed`: then the count rose.
pub trait Peer {
    /// What the peer means.
    ghost meaning: { Self → Meaning };

    /// The file that it holds of a segment; None where it holds none.
    fn copy(
        &mut self,
        alloc: Global,
        partition: Partition,
        sequence: Sequence,
    ) -> Result<Option<Bytes>, PeerFault>
        ensures { Copies (meaning self.old) (meaning self.new) partition sequence result };
}
