ghost use Rattle.std.specs.Prelude.{◌≡◌, ◌≤◌, IfOk, length, map};
ghost use Rattle.rt_model.specs.Metadata.{IsDoneStatus};
ghost use Rattle.rt_segment.specs.Spelling.{header_of};
ghost use Rattle.rt_peer.specs.Fetching.{AsksPeers, Fetches, FetchesBy, IsNamedBy, unfound};

use crate::asking::{ask_deep, ask_peer};
use crate::files::header_by;
use crate::{Got, Peer, PeerFault, PeerRefused};
use rt_base::{Header, Partition, Sequence};
use rt_deep::DeepStore;
use rt_model::{SegMeta, Status};
use std::alloc::Global;

/// Fetches the file of a committed segment: from the deep store, or else from the first peer whose copy is the file that
/// the metadata names.
pub fn fetch<D: DeepStore, P: Peer>(
    alloc: Global,
    deep: &mut D,
    partition: Partition,
    sequence: Sequence,
    meta: &SegMeta,
    peers: &mut [P],
) -> Result<Got, PeerRefused>
    requires done { IsDoneStatus meta.now.status }
    requires few { length peers.old ≤ 4294967295 }
    ensures fetches { FetchesBy meta.now.status partition sequence meta.now (D.meaning deep.old) (D.meaning deep.new)
        (map P.meaning peers.old) (map P.meaning peers.new) result }
    ensures named { IfOk result (IsNamedBy meta.now.status partition sequence meta.now) }
{
    match &meta.status {
        Status::Done(commit) => {
            let wanted = header_by(partition, sequence, meta, commit);
            fetch_file(alloc, deep, commit.path.as_str(), wanted, peers)
        }
        _ => unreachable!(),
    }
}

/// Fetches the file with a header: from a path of the deep store, or else from the first peer that has it.
fn fetch_file<D: DeepStore, P: Peer>(
    alloc: Global,
    deep: &mut D,
    path: &str,
    wanted: Header,
    peers: &mut [P],
) -> Result<Got, PeerRefused>
    requires { length peers.old ≤ 4294967295 }
    ensures fetches { Fetches wanted path.now (D.meaning deep.old) (D.meaning deep.new) (map P.meaning peers.old) (map P.meaning peers.new) result }
    ensures named { IfOk result (λ got. header_of got.sealed ≡ wanted) }
{
    ask_all(alloc, deep, path, wanted, peers)
}

/// Asks the deep store, and then the peers.
fn ask_all<D: DeepStore, P: Peer>(
    alloc: Global,
    deep: &mut D,
    path: &str,
    wanted: Header,
    peers: &mut [P],
) -> Result<Got, PeerRefused>
    requires { length peers.old ≤ 4294967295 }
    ensures { Fetches wanted path.now (D.meaning deep.old) (D.meaning deep.new) (map P.meaning peers.old) (map P.meaning peers.new) result }
{
    match ask_deep(alloc, deep, path, wanted) {
        Ok(Some(sealed)) => Ok(Got { from: None, sealed }),
        Ok(None) => ask_peers(alloc, wanted, false, peers),
        Err(PeerFault::Failed) => ask_peers(alloc, wanted, true, peers),
        Err(PeerFault::Memory) => Err(PeerRefused::Memory),
    }
}

/// Asks the peers in order, up to the first that has the wanted file. Whether a fault was met before is told.
fn ask_peers<P: Peer>(
    alloc: Global,
    wanted: Header,
    faulted: bool,
    peers: &mut [P],
) -> Result<Got, PeerRefused>
    requires { length peers.old ≤ 4294967295 }
    ensures { AsksPeers wanted faulted 0 (map P.meaning peers.old) (map P.meaning peers.new) result }
{
    let mut failed = faulted;
    let mut number: u32 = 0;
    for peer in peers.iter_mut() {
        match ask_peer(alloc, peer, wanted) {
            Ok(Some(sealed)) => {
                return Ok(Got {
                    from: Some(number),
                    sealed,
                });
            }
            Ok(None) => {}
            Err(PeerFault::Failed) => failed = true,
            Err(PeerFault::Memory) => return Err(PeerRefused::Memory),
        }
        number += 1;
    }
    Err(unfound(failed))
}

/// Why no file was found.
fn unfound(faulted: bool) -> PeerRefused
    ensures { result ≡ unfound faulted }
{
    if faulted {
        PeerRefused::Faulted
    } else {
        PeerRefused::Nowhere
    }
}
