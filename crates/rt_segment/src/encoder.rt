ghost use Rattle.std.specs.Prelude.{◌≡◌, IfOk};
ghost use Rattle.rt_segment.specs.Spelling.{file_of};

use crate::sealed::Sealed;
use std::alloc::{AllocError, Global};

/// The file of a segment, in the format that the segment keeps. Fails only where memory is refused.
pub fn encode(alloc: Global, sealed: &Sealed) -> Result<Vec<u8>, AllocError>
    ensures { IfOk result (λ bytes. bytes.items ≡ file_of sealed.now) }
{
    let mut out = sealed.body(alloc)?;
    let digest = sealed.digest_behind(out.as_slice());
    out.extend_from_slice(&digest)?;
    Ok(out)
}
