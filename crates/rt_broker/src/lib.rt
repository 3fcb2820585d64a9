//! The broker's side of a query: the plan of each partition, the servers that were asked for each piece of it, and the
//! answer over what was served.
#![tactic(auto)]

mod answering;
mod asked;
mod laws;
mod own_laws;
mod piece_asked;
mod piece_given;
mod piece_got;
mod plan;
mod ranges;
mod refused;
mod route;

pub use asked::Asked;
pub use laws::{
    routes_over_a_told_store_are_exact, what_was_asked_is_served, what_was_asked_lasts,
};
pub use own_laws::{
    a_broker_notes_what_was_given, what_a_broker_asked_lasts, what_is_missing_was_refused,
    what_was_asked_is_served_over_a_lawful_history, what_was_given_right_is_asked_right,
};
pub use piece_asked::{PieceAnswer, PieceAsked};
pub use piece_given::PieceGiven;
pub use piece_got::PieceGot;
pub use plan::Plan;
pub use refused::BrokerRefused;
pub use route::Route;
