use rt_base::{Partition, Sequence};
use std::alloc::{AllocError, Global};
use std::collections::BTreeMap;

/// The turns for which a replica waits for the reply to its first request.
const FIRST_WAIT: u64 = 64;

/// The most turns for which a replica waits.
const LONGEST_WAIT: u64 = 1_048_576;

/// How long each replica of a server waits for a reply before it asks again. It serves the choice of what to do next
/// alone: nothing is promised of it.
#[derive(Drop)]
pub(crate) struct Patience {
    waits: BTreeMap<(Partition, Sequence), Waiting>,
}

/// A replica waits up to a turn of its server, so many turns since it asked.
#[derive(Clone, Copy, Drop)]
struct Waiting {
    until: u64,
    turns: u64,
}

impl Patience {
    /// No replica waits.
    pub(crate) fn new(alloc: Global) -> Patience {
        Patience {
            waits: BTreeMap::new(alloc),
        }
    }

    /// Whether the replica of a segment may ask in this turn.
    pub(crate) fn is_over(&self, partition: Partition, sequence: Sequence, turn: u64) -> bool {
        match self.waits.get(&(partition, sequence)) {
            Some(waiting) => turn >= waiting.until,
            None => true,
        }
    }

    /// The replica of a segment asked in this turn: it waits 64 turns, and twice as long at each further request, up to
    /// 1,048,576. Fails only where memory is refused.
    pub(crate) fn begin(
        &mut self,
        partition: Partition,
        sequence: Sequence,
        turn: u64,
    ) -> Result<(), AllocError> {
        let turns = match self.waits.get(&(partition, sequence)) {
            Some(waiting) => waiting.turns.saturating_mul(2).min(LONGEST_WAIT),
            None => FIRST_WAIT,
        };
        let waiting = Waiting {
            until: turn.saturating_add(turns),
            turns,
        };
        self.waits.insert((partition, sequence), waiting)?;
        Ok(())
    }

    /// The replica of a segment waits no more.
    pub(crate) fn end(&mut self, partition: Partition, sequence: Sequence) {
        let _ended = self.waits.remove(&(partition, sequence));
    }

    /// No replica waits any more.
    pub(crate) fn clear(&mut self) {
        self.waits.clear();
    }
}
