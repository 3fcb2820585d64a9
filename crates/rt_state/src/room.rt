//! What a run still has room for.
ghost use Rattle.std.specs.Prelude.{◌≡◌};
ghost use Rattle.rt_state.specs.Room.{priced};

use crate::{Cost, State};
use rt_base::Which;
use rt_base::limits::{
    LAST_MOMENT, LONGEST_MESSAGE, MOST_EVENTS, MOST_QUERIES, MOST_SENT, MOST_STORED,
};
use rt_events::Refusal;

impl State {
    /// The cost of an event that there is room for; else the first limit that it would pass.
    pub(crate) fn price(&self, cost: Cost) -> Result<Cost, Refusal>
        ensures { result ≡ priced self.now cost }
    {
        if cost.message > LONGEST_MESSAGE {
            return Err(Refusal::Limit(Which::Message));
        }
        if self.counts.events >= MOST_EVENTS {
            return Err(Refusal::Limit(Which::Events));
        }
        if self.counts.uploads.saturating_add(cost.uploads) > MOST_SENT {
            return Err(Refusal::Limit(Which::Sent));
        }
        if self.counts.unanswered.saturating_add(cost.queries) > MOST_QUERIES as u64 {
            return Err(Refusal::Limit(Which::Queries));
        }
        if self.counts.stored.saturating_add(cost.stored) > MOST_STORED {
            return Err(Refusal::Limit(Which::Stored));
        }
        if self.moment.0.saturating_add(cost.millis) > LAST_MOMENT {
            return Err(Refusal::Limit(Which::Moment));
        }
        Ok(cost)
    }
}
