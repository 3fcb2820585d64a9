//! When the broker's queries can go on, piece by piece.
ghost use Rattle.std.specs.Prelude.{◌≡◌};
ghost use Rattle.rt_state.specs.Queries.{ask_due, route_due, piece_due, answer_due};

use crate::{Cost, State};
use rt_base::{Instance, Partition, Sequence};
use rt_events::Refusal;

impl State {
    /// What it costs to ask a query, or why that can't happen now. Takes no memory.
    pub fn ask_due(&self) -> Result<Cost, Refusal>
        ensures { result ≡ ask_due self.now }
    {
        self.price(Cost::of_query())
    }

    /// What it costs to route a partition of a query, or why that can't happen now. Takes no memory.
    pub fn route_due(&self, query: u32, partition: Partition) -> Result<Cost, Refusal>
        ensures { result ≡ route_due self.now query partition }
    {
        if !self.has_partition(partition) {
            return Err(Refusal::NoSuchNode);
        }
        match self.query_of(query) {
            Some(asked) => {
                if asked.tried(partition) {
                    return Err(Refusal::NothingToDo);
                }
                self.price(Cost::none())
            }
            None => Err(Refusal::NoSuchMessage),
        }
    }

    /// What it costs to ask a server for a piece of a query's plan, or why that can't happen now. Takes no memory.
    pub fn piece_due(
        &self,
        query: u32,
        partition: Partition,
        sequence: Sequence,
        instance: Instance,
    ) -> Result<Cost, Refusal>
        ensures { result ≡ piece_due self.now query partition sequence instance }
    {
        if !(self.has_server(instance) && self.has_partition(partition)) {
            return Err(Refusal::NoSuchNode);
        }
        match self.query_of(query) {
            Some(asked) => {
                if !asked.piece_due(partition, sequence, instance) {
                    return Err(Refusal::NothingToDo);
                }
                self.price(Cost::none())
            }
            None => Err(Refusal::NoSuchMessage),
        }
    }

    /// What it costs to answer a query, or why that can't happen now. Takes no memory.
    pub fn answer_due(&self, query: u32) -> Result<Cost, Refusal>
        ensures { result ≡ answer_due self.now query }
    {
        match self.query_of(query) {
            Some(asked) => {
                if !asked.answer_due() {
                    return Err(Refusal::NothingToDo);
                }
                self.price(Cost::none())
            }
            None => Err(Refusal::NoSuchMessage),
        }
    }
}
