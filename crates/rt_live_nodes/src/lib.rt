//! The nodes of a running cluster: each is founded in its seat over one ground, with the queues between them and the
//! histories of what its servers are asked.
#![tactic(auto)]

mod founded;
mod founding;
mod nodes;
mod posting;
mod reading;
mod seating;
mod stock;

pub use founded::Founded;
pub use founding::{callers_of, found_cluster};
pub use nodes::Nodes;
