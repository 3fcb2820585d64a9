//! Each event happens to the state of a cluster.
//!
//! An event has one function here. Where the event can happen, it makes one call of one node, which makes one call of a store
//! at most, and counts what the event costs. Where it can't, the function gives the refusal, and changes nothing.
mod clock;
mod jobs;
mod lives;
mod messages;
mod queries;
mod repairs;
mod replicas;
mod requests;
mod servers;
mod shows;
mod stream;

pub(crate) use clock::{fault_deep, fault_store, lead, pass, tick};
pub(crate) use jobs::job;
pub(crate) use lives::{crash_controller, crash_server, restart_controller, restart_server};
pub(crate) use messages::{deliver, reply};
pub(crate) use queries::{answer, ask, piece, route};
pub(crate) use repairs::keep;
pub(crate) use replicas::{build, consume, force, stop};
pub(crate) use requests::{extend, report};
pub(crate) use servers::{download, see, transit};
pub(crate) use shows::{show_ideal, show_meta};
pub(crate) use stream::{append, produce};
