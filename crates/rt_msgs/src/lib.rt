//! The messages between a replica and a controller: the numbers of its requests, and the texts by which reports name
//! requests and answers.
#![tactic(auto)]

mod numbers;
mod requests;
mod statuses;

pub use numbers::{Numbers, numbers_differ};
pub use requests::request_text;
pub use statuses::status_text;
