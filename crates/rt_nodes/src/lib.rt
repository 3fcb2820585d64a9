//! The nodes of a cluster, each up or down, and the part of an event that one of them does by itself.
//!
//! A server's or a controller's step is one call on its own state, which makes one call of a store at most, and says what
//! came of it. Each call has its `due` above, where all nodes stand: here it is there and has something to do.
#![tactic(auto)]

mod chore;
mod controller_node;
mod fresh;
mod lives;
mod messages;
mod queries;
mod reading;
mod repairs;
mod replicas;
mod requests;
mod server_node;
mod servers;
mod upkeep;

pub use chore::Chore;
pub use controller_node::ControllerNode;
pub use fresh::{first_controllers, first_servers};
pub use queries::{note_answer, piece_outcome, route_query};
pub use replicas::stops;
pub use rt_consumer::takes_messages;
pub use server_node::ServerNode;
pub use upkeep::Upkeep;
