//! A server of a running cluster, in the seat in which its thread and the broker find it: what it does in its turns,
//! what it gives the broker, and all that it says of itself when it has ended.
//!
//! The seat keeps a diary of what its server did, which replays: each thing that it did is the server's own step, over
//! what the store, the deep store and the stream showed then.
#![tactic(auto)]

mod acting;
mod agenda;
mod asking;
mod did;
mod due;
mod ended;
mod fates;
mod giver;
mod giving;
mod laws;
mod looking;
mod patience;
mod pieces;
mod reads;
mod replicas;
mod seat;
mod taking;
mod turns;

pub use acting::Acting;
pub use did::ServerDid;
pub use ended::ServerEnded;
pub use laws::what_a_server_was_shown_never_falls;
pub use pieces::PieceKeeper;
pub use seat::ServerSeat;
