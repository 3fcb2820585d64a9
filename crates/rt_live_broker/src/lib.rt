//! The broker of a running cluster: it asks the servers, each under that server's own lock, and keeps how each answer
//! came about.
#![tactic(auto)]

mod acting;
mod asking;
mod asks;
mod begun;
mod did;
mod ended;
mod giving;
mod kept;
mod seat;
mod whole;

pub use did::BrokerDid;
pub use ended::BrokerEnded;
pub use kept::AnswerKept;
pub use seat::BrokerSeat;
pub use whole::lengths_of;
