ghost use Rattle.std.specs.Prelude.{◌≡◌, IfOk, Ok};
ghost use Rattle.rt_segment.specs.Cursor.{Answers};
ghost use Rattle.rt_segment.specs.Segment.{SealedSegment, IsSealed};
ghost use Rattle.rt_segment.specs.Spelling.{file_of};
ghost use Rattle.rt_segment.specs.Reading.{read_file};

use crate::body_reader::read_body;
use crate::cursor::Cursor;
use crate::sealed::Sealed;
use crate::segment_refused::SegmentRefused;
use rt_base::Header;
use sha2::{Digest, Sha256};
use std::alloc::Global;

/// The segment that bytes are the file of, in either format; or the first fault in them.
pub fn decode(alloc: Global, bytes: &[u8]) -> Result<Sealed, SegmentRefused>
    // Which segment it is, or which fault.
    ensures read { Answers (λ segment. segment) result (read_file bytes.now) }

    // What is decoded is spelled so, each byte of it.
    ensures spelled { IfOk result (λ segment. bytes.now ≡ file_of segment) }

    // What is spelled so is decoded, unless memory runs out.
    ensures only { (segment : SealedSegment) → IsSealed segment → bytes.now ≡ file_of segment → Answers (λ s. s) result (Ok segment) }
{
    read_file(alloc, bytes)
}

#[tactic(auto, unfolding(crate::specs::Reading::read_file))]
fn read_file(alloc: Global, bytes: &[u8]) -> Result<Sealed, SegmentRefused>
    ensures { Answers (λ segment. segment) result (read_file bytes.now) }
{
    let mut cursor = Cursor::new(bytes);
    let body = read_body(alloc, &mut cursor)?;
    let end = cursor.place() as usize;
    let digest = cursor.bytes(32)?;
    let sum = Sha256::digest(&bytes[..end]);
    if digest != sum.as_slice() {
        return Err(SegmentRefused::Digest);
    }
    if !cursor.is_empty() {
        return Err(cursor.breach());
    }
    let header = Header {
        partition: body.partition,
        sequence: body.sequence,
        range: body.range,
        rows: body.rows,
        digest: sum,
    };
    Ok(Sealed::of(body.format, header, body.columns))
}
