//! The calls of what nodes answer: the names of limits and the texts of answers, what a controller makes of requests, the
//! first step of a commit job, what a server serves, and how a rehearsal goes on.
#![tactic(auto)]

mod checks;
mod controllers;
mod limit_names;
mod rehearsals;
mod requests;
mod servers;
mod statuses;

pub use checks::check;
pub use controllers::handle;
pub use limit_names::limits;
pub use rehearsals::rehearse;
pub use servers::server;
pub use statuses::{failure, status};
