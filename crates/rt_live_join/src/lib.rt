//! The nodes of a running cluster have ended: what each had is taken out of its seat, the posts are gathered into their
//! inboxes, and all callers are met into one.
#![tactic(auto)]

mod controllers;
mod feeding;
mod hearing;
mod joined;
mod joining;
mod meeting;
mod others;
mod parts;
mod placed;
mod posting;
mod putting;
mod servers;
mod showing;
mod waiting;

pub use joined::Joined;
pub use joining::join_all;
