ghost use Rattle.std.specs.Prelude.{◌≡◌};
ghost use Rattle.rt_stream.specs.declared.feed.FeedRefused.TheVariants.{Memory};
ghost use Rattle.rt_stream.specs.Feed.{FeedMeaning, Fetches, Measures};

use crate::Messages;
use rt_base::{Offset, Partition};
use std::alloc::{AllocError, Global};
use thiserror::Error;

/// Why a call of the stream was refused.
#[derive(Clone, Copy, Debug, PartialEq, Eq, Error)]
pub enum FeedRefused {
    /// The partition isn't below the number of partitions.
    #[error("no partition has this number")]
    NoPartition,
    /// The offset lies past the end of the partition's log.
    #[error("offset {} lies past the end, {}", .from.0, .length.0)]
    PastEnd { from: Offset, length: Offset },
    /// Memory ran out.
    #[error("out of memory")]
    Memory,
}

impl From<AllocError> for FeedRefused {
    ghost from_gives = { λ _ e. e ≡ Memory };

    fn from(_: AllocError) -> FeedRefused {
        FeedRefused::Memory
    }
}

/// Where the messages of the stream come from.
pub trait Feed {
    /// The log, where it is told, and the messages that the caller has seen.
    ghost meaning: { Self → FeedMeaning };

    /// The messages of a partition from an offset on, as many as there are up to `max`.
    fn fetch(
        &mut self,
        alloc: Global,
        partition: Partition,
        from: Offset,
        max: u32,
    ) -> Result<Messages, FeedRefused>
        ensures { Fetches (meaning self.old) (meaning self.new) partition from max result };

    /// The number of messages of a partition: the offset of the next one. It takes no memory.
    fn length(&mut self, partition: Partition) -> Result<Offset, FeedRefused>
        ensures { Measures (meaning self.old) (meaning self.new) partition result };
}
