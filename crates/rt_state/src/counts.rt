ghost use Rattle.std.specs.Prelude.{◌≡◌, ◌+◌, ◌<◌, ◌^◌};
ghost use Rattle.rt_state.specs.Room.{spent, with_set, with_query_closed};

use crate::Cost;

/// What a run has taken so far of the room that it has.
#[derive(Clone, Copy, PartialEq, Eq)]
pub struct Counts {
    /// The events so far.
    pub events: u64,
    /// The bytes of uploads in all requests.
    pub uploads: u64,
    /// The queries that are asked and unanswered.
    pub unanswered: u64,
    /// The entries of all ideal states of the history together.
    pub stored: u64,
}

impl Counts {
    /// Counts an event that happened, with what it costs. What is set of the ideal state is counted by itself.
    pub fn spend(&mut self, cost: Cost)
        requires events { self.old.events + 1 < 2 ^ 64 }
        requires uploads { self.old.uploads + cost.uploads < 2 ^ 64 }
        requires queries { self.old.unanswered + cost.queries < 2 ^ 64 }
        ensures { self.new ≡ spent self.old cost }
    {
        self.events += 1;
        self.uploads += cost.uploads;
        self.unanswered += cost.queries;
    }

    /// Counts the entries that a step would have set, where the history has grown by it.
    pub fn note_set(&mut self, cost: Cost, before: usize, now: usize)
        requires { self.old.stored + cost.stored < 2 ^ 64 }
        ensures { self.new ≡ with_set self.old cost before now }
    {
        if before < now {
            self.stored += cost.stored;
        }
    }

    /// A query that was answered is no more open.
    pub fn close_query(&mut self)
        requires { 0 < self.old.unanswered }
        ensures { self.new ≡ with_query_closed self.old }
    {
        self.unanswered -= 1;
    }
}
