//! The producer of a running cluster: it appends the messages of the input to the stream, in their order.
#![tactic(auto)]

mod ended;
mod seat;

pub use ended::ProducerEnded;
pub use seat::ProducerSeat;
