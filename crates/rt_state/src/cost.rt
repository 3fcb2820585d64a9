ghost use Rattle.std.specs.Prelude.{◌≡◌};
ghost use Rattle.rt_state.specs.Room.{no_cost, message_cost, upload_cost, query_cost, set_cost, time_cost};

/// What an event takes of the room that a run has, beside its place among the events.
#[derive(Clone, Copy, PartialEq, Eq)]
pub struct Cost {
    /// The bytes of the message that it appends.
    pub message: usize,
    /// The bytes that it uploads.
    pub uploads: u64,
    /// The queries that it asks.
    pub queries: u64,
    /// The entries of the ideal state that it would set.
    pub stored: u64,
    /// The milliseconds by which it moves the clock.
    pub millis: u64,
}

impl Cost {
    /// Nothing but its place among the events.
    pub(crate) fn none() -> Cost
        ensures { result ≡ no_cost }
    {
        Cost {
            message: 0,
            uploads: 0,
            queries: 0,
            stored: 0,
            millis: 0,
        }
    }

    pub(crate) fn of_message(bytes: usize) -> Cost
        ensures { result ≡ message_cost bytes }
    {
        Cost {
            message: bytes,
            ..Cost::none()
        }
    }

    pub(crate) fn of_upload(bytes: u64) -> Cost
        ensures { result ≡ upload_cost bytes }
    {
        Cost {
            uploads: bytes,
            ..Cost::none()
        }
    }

    pub(crate) fn of_query() -> Cost
        ensures { result ≡ query_cost }
    {
        Cost {
            queries: 1,
            ..Cost::none()
        }
    }

    /// That of a step which would set so many entries of the ideal state, if any.
    pub(crate) fn of_set(entries: Option<u64>) -> Cost
        ensures { result ≡ set_cost entries }
    {
        Cost {
            stored: entries.unwrap_or(0),
            ..Cost::none()
        }
    }

    pub(crate) fn of_time(millis: u64) -> Cost
        ensures { result ≡ time_cost millis }
    {
        Cost {
            millis,
            ..Cost::none()
        }
    }
}
