ghost use Rattle.std.specs.Prelude.{◌≤◌};
ghost use Rattle.rt_base.specs.declared.limits.TheConstants.{LAST_MOMENT};

use rt_base::limits::LAST_MOMENT;
use rt_base::{Clock, Moment};

/// The cluster's moment: its start and the reading of a clock behind it, in milliseconds, and no later than the end of the
/// year 9999. It reads the clock once.
pub fn moment<C: Clock>(start: Moment, clock: &C) -> Moment
    ensures { result.0 ≤ LAST_MOMENT }
{
    let now = start.0.saturating_add(clock.now().0);
    Moment(now.min(LAST_MOMENT))
}
