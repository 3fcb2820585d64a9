//! What can happen to a cluster, what comes of it, and why it can't.
#![tactic(auto)]

mod event;
mod laws;
mod outcome;
mod refusal;

pub use event::Event;
pub use laws::the_limits_are;
pub use outcome::Outcome;
pub use refusal::Refusal;
