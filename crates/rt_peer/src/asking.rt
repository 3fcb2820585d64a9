//! One place is asked for the file, and what its answer comes to.
ghost use Rattle.rt_peer.specs.Fetching.{AsksDeep, AsksPeer};

use crate::files::file_in;
use crate::{Peer, PeerFault};
use rt_base::Header;
use rt_deep::{DeepRefused, DeepStore};
use rt_segment::Sealed;
use std::alloc::Global;

/// The wanted file at a path of the deep store; None where what stands there, if anything, is another one.
pub(crate) fn ask_deep<D: DeepStore>(
    alloc: Global,
    deep: &mut D,
    path: &str,
    wanted: Header,
) -> Result<Option<Sealed>, PeerFault>
    ensures { AsksDeep wanted path.now (D.meaning deep.old) (D.meaning deep.new) result }
{
    match deep.get(alloc, path) {
        Ok(bytes) => file_in(alloc, wanted, bytes.as_slice()),
        Err(DeepRefused::Failed) => Err(PeerFault::Failed),
        Err(DeepRefused::Memory) => Err(PeerFault::Memory),
        Err(_) => Ok(None),
    }
}

/// The wanted file of a peer; None where what it holds of the segment, if anything, is another one.
pub(crate) fn ask_peer<P: Peer>(
    alloc: Global,
    peer: &mut P,
    wanted: Header,
) -> Result<Option<Sealed>, PeerFault>
    ensures { AsksPeer wanted (P.meaning peer.old) (P.meaning peer.new) result }
{
    match peer.copy(alloc, wanted.partition, wanted.sequence)? {
        Some(bytes) => file_in(alloc, wanted, bytes.as_slice()),
        None => Ok(None),
    }
}
