//! A controller's and the repairer's nodes in a running cluster: what they hold, what they do in a turn, and all that
//! they did.
//!
//! A controller takes no envelope while a job of its is unfinished, so one job is open at most. Its type keeps that all
//! that it did replays, and what it can say by itself: it put what it took, it committed what it had read, at the machine
//! that waited for it, and it answered what it saw.
#![tactic(auto)]

mod acting;
mod controller_did;
mod controller_ended;
mod controller_seat;
mod heard_journal;
mod heard_request;
mod mending;
mod repairer_did;
mod repairer_ended;
mod repairer_seat;

pub use controller_did::ControllerDid;
pub use controller_ended::ControllerEnded;
pub use controller_seat::ControllerSeat;
pub use repairer_did::RepairerDid;
pub use repairer_ended::RepairerEnded;
pub use repairer_seat::RepairerSeat;
