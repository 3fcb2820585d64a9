//! The stream's messages.
ghost use Rattle.rt_state.specs.Stream.{offset_told, produce_due, produced};
ghost use Rattle.rt_state.specs.Applying.{Applies, comes};
ghost use Rattle.rt_state.specs.IsSafeWorld.{IsSafeWorld};

use rt_base::{Offset, Partition};
use rt_events::{Outcome, Refusal};
use rt_lists::Bytes;
use rt_state::State;
use rt_stream::FeedRefused;
use std::alloc::Global;

/// Appends a message to a partition, and answers its offset.
#[tactic(auto, using(rt_state::proofs::NeedsNodes::produce_needs))]
pub(crate) fn append(
    state: &mut State,
    alloc: Global,
    partition: Partition,
    message: &Bytes,
) -> Result<Offset, Refusal>
    requires { IsSafeWorld state.old }
    ensures { Applies state.old (produce_due state.old partition message.now)
        (λ cost. comes (produced state.old partition message.now cost)) state.new (offset_told result) }
{
    let cost = state.produce_due(partition, message)?;
    match state.log.append(alloc, partition, message.as_slice()) {
        Ok(offset) => {
            state.counts.spend(cost);
            Ok(offset)
        }
        Err(FeedRefused::NoPartition) => unreachable!(),
        Err(FeedRefused::PastEnd { .. }) => unreachable!(),
        Err(FeedRefused::Memory) => Err(Refusal::Memory),
    }
}

/// Appends a message to a partition.
pub(crate) fn produce(
    state: &mut State,
    alloc: Global,
    partition: Partition,
    message: &Bytes,
) -> Result<Outcome, Refusal>
    requires { IsSafeWorld state.old }
    ensures { Applies state.old (produce_due state.old partition message.now)
        (λ cost. comes (produced state.old partition message.now cost)) state.new result }
{
    match append(state, alloc, partition, message) {
        Ok(offset) => Ok(Outcome::Produced(offset)),
        Err(refusal) => Err(refusal),
    }
}
