use crate::committed::Committed;
use crate::given_peer::GivenPeer;
use rt_call_words::{Answer, Stop, Words};
use rt_deep::MemoryDeep;
use rt_peer::{Got, PeerRefused};
use rt_segment::encode;
use std::alloc::Global;

/// The most peers that a fetch asks.
const MOST_PEERS: usize = 4_294_967_295;

/// `fetch P/Q START END PATH DIGEST ROWS`, a tab, and peers with `; ` between them, or `-`: where the segment's file was
/// found, in the deep store or at a peer, and its bytes; or why it wasn't.
pub fn fetch(
    alloc: Global,
    deep: &mut MemoryDeep,
    words: &mut Words,
    answer: &mut Answer,
) -> Result<(), Stop> {
    let mut named = Words::of(words.until('\t'));
    let peers = words.rest();
    words.ended()?;
    let committed = Committed::read(alloc, &mut named)?;
    let mut peers = peers_in(alloc, peers)?;
    if peers.len() > MOST_PEERS {
        return Err(Stop::Refused);
    }
    let Committed { segment, meta } = committed;
    match rt_peer::fetch(
        alloc,
        deep,
        segment.partition,
        segment.sequence,
        &meta,
        peers.as_mut_slice(),
    ) {
        Ok(got) => write_got(alloc, &got, answer),
        Err(refused) => refuse(refused, answer),
    }
}

fn peers_in(alloc: Global, list: &str) -> Result<Vec<GivenPeer>, Stop> {
    let mut peers = Vec::new(alloc);
    if list == "-" {
        return Ok(peers);
    }
    for peer in list.split("; ") {
        peers.push(GivenPeer::read(alloc, &mut Words::of(peer))?)?;
    }
    Ok(peers)
}

// `deep BYTES` or `peer K BYTES`
fn write_got(alloc: Global, got: &Got, answer: &mut Answer) -> Result<(), Stop> {
    match got.from {
        None => answer.add("deep "),
        Some(place) => {
            answer.add("peer ");
            answer.count(place);
            answer.add(" ");
        }
    }
    let bytes = encode(alloc, &got.sealed)?;
    answer.bytes(alloc, bytes.as_slice());
    Ok(())
}

fn refuse(refused: PeerRefused, answer: &mut Answer) -> Result<(), Stop> {
    match refused {
        PeerRefused::Nowhere => answer.add("nowhere"),
        PeerRefused::Faulted => answer.add("faulted"),
        PeerRefused::Memory => return Err(Stop::Memory),
    }
    Ok(())
}
