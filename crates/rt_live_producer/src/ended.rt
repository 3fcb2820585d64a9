use rt_ground::{Caller, Naming};

/// What a producer leaves when it has ended.
#[derive(Drop)]
pub struct ProducerEnded<R, J: Naming> {
    pub caller: Caller<R, J>,
    /// Whether all messages of the input were appended.
    pub all_appended: bool,
}
