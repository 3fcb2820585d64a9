use crate::Moment;

/// What tells the time. Nothing is promised of the value: it may stand, jump or fall.
pub trait Clock {
    fn now(&self) -> Moment;
}
