use rt_base::{Fault, Partition, PlannedFaults, Sequence};
use rt_call_words::{Stop, Words};
use rt_lists::Bytes;
use rt_peer::{Peer, PeerFault};
use std::alloc::Global;

/// A peer that has one answer, whichever segment it is asked for.
#[derive(Drop)]
pub(crate) struct GivenPeer {
    /// What it holds of each segment, if anything.
    held: Option<Bytes>,
    faults: PlannedFaults,
}

impl GivenPeer {
    /// `holds BYTES`, `none` for a peer that holds nothing, or `failed` for one that meets a fault.
    pub(crate) fn read(alloc: Global, words: &mut Words) -> Result<GivenPeer, Stop> {
        let mut faults = PlannedFaults::make(alloc);
        let held = match words.word() {
            "holds" => Some(Bytes::of(words.bytes(alloc))),
            "none" => None,
            "failed" => {
                faults.plan(false)?;
                None
            }
            _ => return Err(Stop::BadLine),
        };
        words.ended()?;
        Ok(GivenPeer { held, faults })
    }
}

impl Peer for GivenPeer {
    ghost use Rattle.rt_call_nodes.specs.Peers.{given};

    ghost meaning = { given };

    fn copy(
        &mut self,
        alloc: Global,
        _partition: Partition,
        _sequence: Sequence,
    ) -> Result<Option<Bytes>, PeerFault> {
        match self.faults.meet() {
            Fault::Nothing => {}
            Fault::Lost | Fault::Kept => return Err(PeerFault::Failed),
        }
        match &self.held {
            Some(bytes) => Ok(Some(bytes.copy(alloc)?)),
            None => Ok(None),
        }
    }
}
