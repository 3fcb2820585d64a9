ghost use Rattle.std.specs.Prelude.{◌≡◌, ◌≤◌, ◌<◌, [], length, slice_get, replicate, IfOk, IfSome, IfNone};
ghost use Rattle.rt_stream.specs.Feed.{Fetches, Measures, answered, log_meaning};
ghost use Rattle.rt_stream.specs.Log.{Appends, messages_of, end_of, fetched, measured};

use crate::partition_log::PartitionLog;
use crate::{Feed, FeedRefused, Messages};
use rt_base::limits::LONGEST_MESSAGE;
use rt_base::{Offset, Partition};
use std::alloc::{AllocError, Global};
use std::marker::Model;

/// The stream in memory: for each partition, its messages in the order in which they came.
#[derive(Drop)]
pub struct StreamLog {
    partitions: Vec<PartitionLog>,
}

impl Model for StreamLog {
    ghost use Rattle.std.specs.Prelude.{List, ℕ, vec_len, ◌≤◌};

    ghost Value = { List (List (List ℕ)) };

    ghost view = { λ s. s.partitions.items };
}

impl StreamLog {
    /// A stream of this many partitions, with no message in any of them.
    pub fn make(alloc: Global, partitions: u32) -> Result<StreamLog, AllocError>
        ensures { IfOk result (λ log. log ≡ replicate partitions []) }
    {
        let mut made = Vec::with_capacity(alloc, partitions as usize)?;
        for _partition in 0..partitions {
            made.push_reserved(PartitionLog::new(alloc));
        }
        Ok(StreamLog { partitions: made })
    }

    /// Adds a message at the end of a partition, and answers its offset. Where it is refused, the log is
    /// as before.
    pub fn append(
        &mut self,
        alloc: Global,
        partition: Partition,
        message: &[u8],
    ) -> Result<Offset, FeedRefused>
        requires { length message.now ≤ LONGEST_MESSAGE }
        ensures { Appends self.old self.new partition message.now result }
    {
        let Some(log) = self.partitions.get_mut(partition.0 as usize) else {
            return Err(FeedRefused::NoPartition);
        };
        let offset = Offset(log.len());
        log.push(alloc, message)?;
        Ok(offset)
    }

    /// The number of messages of a partition: the offset of the next one.
    pub fn size(&self, partition: Partition) -> Offset
        requires { partition.0 < length self.now }
        ensures { result ≡ end_of (messages_of self.now partition) }
    {
        Offset(self.partitions[partition.0 as usize].len())
    }

    /// The message of a partition at an offset, with no copy.
    pub fn message(&self, partition: Partition, offset: Offset) -> &[u8]
        requires partition { partition.0 < length self.now }
        requires offset { offset.0 < length (messages_of self.now partition) }
        ensures message { slice_get (messages_of self.now partition) offset.0 ≡ Some result.now }
        ensures short { length result.now ≤ LONGEST_MESSAGE }
    {
        self.partitions[partition.0 as usize].get(offset.0)
    }

    /// The messages of a partition, where there is one of this number.
    fn log_of(&self, partition: Partition) -> Option<&PartitionLog>
        ensures some { IfSome result (λ log.
            (partition.0 < length self.now) × (log.now ≡ messages_of self.now partition)) }
        ensures none { IfNone result (length self.now ≤ partition.0) }
    {
        self.partitions.get(partition.0 as usize)
    }
}

impl Feed for StreamLog {
    ghost meaning = { log_meaning };

    /// Copies the messages, and leaves the log as it is.
    fn fetch(
        &mut self,
        alloc: Global,
        partition: Partition,
        from: Offset,
        max: u32,
    ) -> Result<Messages, FeedRefused>
        ensures feed { Fetches (log_meaning self.old) (log_meaning self.new) partition from max result }
        ensures answer { answered result (fetched self.old partition from max) }
        ensures same { self.new ≡ self.old }
    {
        let Some(log) = self.log_of(partition) else {
            return Err(FeedRefused::NoPartition);
        };
        let length = Offset(log.len());
        if from.0 > length.0 {
            return Err(FeedRefused::PastEnd { from, length });
        }
        Ok(log.copied_from(alloc, from.0, max)?)
    }

    fn length(&mut self, partition: Partition) -> Result<Offset, FeedRefused>
        ensures feed { Measures (log_meaning self.old) (log_meaning self.new) partition result }
        ensures answer { result ≡ measured self.old partition }
        ensures same { self.new ≡ self.old }
    {
        match self.log_of(partition) {
            Some(log) => Ok(Offset(log.len())),
            None => Err(FeedRefused::NoPartition),
        }
    }
}
