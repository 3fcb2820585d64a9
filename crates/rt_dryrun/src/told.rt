//! Refusals by their numbers.
ghost use Rattle.rt_dryrun.specs.Rehearsing.{IsTold};

use rt_events::Refusal;
use rt_rebalance::RebalanceRefused;

/// The number of a refusal; want of memory has none.
pub(crate) fn told(refused: RebalanceRefused) -> Result<u32, Refusal>
    ensures { IsTold refused result }
{
    match refused.number() {
        Some(number) => Ok(number),
        None => Err(Refusal::Memory),
    }
}
