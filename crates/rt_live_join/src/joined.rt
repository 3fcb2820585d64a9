use rt_ground::{Caller, Naming};
use rt_lists::Items;
use rt_live_output::{Heard, Queue};
use rt_model::Answer;

/// What the nodes of a cluster have come to, once all of them have ended.
#[derive(Drop)]
pub struct Joined<R, J: Naming> {
    /// The one caller into which those of all nodes were met.
    pub caller: Caller<R, J>,
    /// What each controller heard, by its number; none where no journal is shown.
    pub heard: Items<Items<Heard>>,
    /// The queues of each server, one to each controller.
    pub to_controllers: Items<Items<Queue>>,
    /// The queues of each controller, one to each server.
    pub to_servers: Items<Items<Queue>>,
    /// The first answers, in the order of the queries; none where no journal is shown.
    pub mids: Items<Answer>,
    /// The answers that leave nothing out, in the order of the queries.
    pub answers: Items<Answer>,
}
