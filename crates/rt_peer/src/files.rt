//! Which bytes are the file that metadata names.
ghost use Rattle.std.specs.Prelude.{◌≡◌, Ok};
ghost use Rattle.rt_peer.specs.Files.{Comes, decoded_as, file_in, header_by, named_in, same_header};

use crate::PeerFault;
use rt_base::{Header, Partition, Range, Sequence};
use rt_model::{Commit, SegMeta};
use rt_segment::{Sealed, SegmentRefused, decode};
use std::alloc::Global;

/// The header that the metadata of a commit names.
pub(crate) fn header_by(
    partition: Partition,
    sequence: Sequence,
    meta: &SegMeta,
    commit: &Commit,
) -> Header
    ensures { result ≡ header_by partition sequence meta.now commit.now }
{
    Header {
        partition,
        sequence,
        range: Range {
            start: meta.start,
            end: commit.end,
        },
        rows: commit.rows,
        digest: commit.digest,
    }
}

/// The segment in some bytes, where they are the wanted file. Fails only where memory is refused.
#[tactic(auto, using(crate::proofs::Decoding::decoded_is))]
pub(crate) fn file_in(
    alloc: Global,
    wanted: Header,
    bytes: &[u8],
) -> Result<Option<Sealed>, PeerFault>
    ensures { Comes (Ok (file_in wanted bytes.now)) result }
{
    decoded_as(alloc, wanted, decode(alloc, bytes))
}

/// What decoded bytes are, where a file with this header is wanted. Fails only where memory is refused.
fn decoded_as(
    alloc: Global,
    wanted: Header,
    decoded: Result<Sealed, SegmentRefused>,
) -> Result<Option<Sealed>, PeerFault>
    ensures { Comes (decoded_as wanted decoded) result }
{
    match decoded {
        Ok(sealed) => named_in(alloc, wanted, sealed),
        Err(SegmentRefused::Memory) => Err(PeerFault::Memory),
        Err(_) => Ok(None),
    }
}

/// A segment, where it has this header. Fails only where memory is refused.
fn named_in(alloc: Global, wanted: Header, sealed: Sealed) -> Result<Option<Sealed>, PeerFault>
    ensures { Comes (Ok (named_in wanted sealed)) result }
{
    let found = sealed.header(alloc)?;
    if same_header(found, wanted) {
        Ok(Some(sealed))
    } else {
        Ok(None)
    }
}

fn same_header(found: Header, wanted: Header) -> bool
    ensures { result ≡ same_header found wanted }
{
    found.partition == wanted.partition
        && found.sequence == wanted.sequence
        && found.range.start == wanted.range.start
        && found.range.end == wanted.range.end
        && found.rows == wanted.rows
        && found.digest == wanted.digest
}
