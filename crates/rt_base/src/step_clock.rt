use crate::{Clock, Moment};
use std::sync::atomic::{AtomicU64, Ordering};

/// A clock that answers 0, 1, 2 and so on, one step a call, whichever thread asks.
#[derive(Drop)]
pub struct StepClock {
    next: AtomicU64,
}

impl StepClock {
    pub fn make() -> StepClock {
        StepClock {
            next: AtomicU64::new(0),
        }
    }
}

impl Clock for StepClock {
    fn now(&self) -> Moment {
        Moment(self.next.fetch_add(1, Ordering::SeqCst))
    }
}
