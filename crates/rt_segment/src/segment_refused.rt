ghost use Rattle.std.specs.Prelude.{◌≡◌};
ghost use Rattle.rt_segment.specs.declared.segment_refused.SegmentRefused.TheVariants.{Memory};

use std::alloc::{AllocError, AllocFailed};

/// Why bytes are no segment file: the first fault from left to right.
#[derive(Clone, Copy, Debug, PartialEq, Eq)]
pub enum SegmentRefused {
    /// Fewer bytes are left than the field needs.
    Truncated,
    /// The first 8 bytes are those of neither format.
    Magic,
    /// A field has a value that no segment's file has there.
    NotCanonical {
        /// The place of the field's first byte, from 0.
        byte: u64,
    },
    /// The digest isn't the SHA-256 of the bytes before it.
    Digest,
    /// A count or a length is past its limit.
    Limit,
    /// Memory ran out.
    Memory,
}

impl From<AllocError> for SegmentRefused {
    ghost from_gives = { λ _ e. e ≡ Memory };

    fn from(_refused: AllocError) -> SegmentRefused {
        SegmentRefused::Memory
    }
}

impl<T: Drop> From<AllocFailed<T>> for SegmentRefused {
    ghost from_gives = { λ _ e. e ≡ Memory };

    fn from(_refused: AllocFailed<T>) -> SegmentRefused {
        SegmentRefused::Memory
    }
}
