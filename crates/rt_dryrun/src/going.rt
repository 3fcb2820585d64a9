ghost use Rattle.std.specs.Prelude.{◌≡◌};
ghost use Rattle.rt_rebalance.specs.Rehearsed.{is_online_at, loaded};
ghost use Rattle.rt_dryrun.specs.Rehearsing.{StepsGoing, is_among, started};

use crate::Stepped;
use crate::told::told;
use rt_base::{Instance, Partition, Sequence};
use rt_events::Refusal;
use rt_lists::Items;
use rt_model::IdealState;
use rt_rebalance::Rehearsal;
use std::alloc::Global;
use std::marker::Model;

/// A plan that is gone through.
#[derive(Drop)]
pub(crate) struct Going {
    /// The number of servers for which it was made.
    servers: u32,
    /// The number of its steps.
    steps: u64,
    rehearsal: Rehearsal,
}

impl Model for Going {
    ghost use Rattle.rt_dryrun.specs.Rehearsing.{Going as Gone};

    ghost Value = { Gone };

    ghost view = { λ a. record { servers = a.servers; steps = a.steps; rehearsed = a.rehearsal } };
}

impl Going {
    /// Begins at the first state of a plan for a number of servers.
    pub(crate) fn start(alloc: Global, servers: u32, states: Items<IdealState>) -> Going
        ensures { result ≡ started servers states }
    {
        let steps = states.len().saturating_sub(1) as u64;
        Going {
            servers,
            steps,
            rehearsal: Rehearsal::begin(alloc, states),
        }
    }

    /// The number of the plan's steps.
    pub(crate) fn steps(&self) -> u64
        ensures { result ≡ self.now.steps }
    {
        self.steps
    }

    /// Whether an instance is one of the servers for which the plan was made.
    pub(crate) fn has_server(&self, instance: Instance) -> bool
        ensures { result ≡ is_among self.now instance }
    {
        instance.0 < self.servers
    }

    /// An instance has loaded a segment, which is answered where it is ONLINE there in the present state.
    pub(crate) fn load(
        &mut self,
        instance: Instance,
        partition: Partition,
        sequence: Sequence,
    ) -> bool
        ensures answer { result ≡ is_online_at self.old.rehearsed partition sequence instance }
        ensures loaded { self.new ≡ record self.old { rehearsed = loaded partition sequence instance self.old.rehearsed } }
    {
        self.rehearsal.loaded(partition, sequence, instance)
    }

    /// Goes on to the next state, or says why it doesn't.
    pub(crate) fn step(&mut self) -> Result<Stepped, Refusal>
        ensures { StepsGoing self.old self.new result }
    {
        match self.rehearsal.step() {
            Ok(state) => Ok(Stepped::At {
                state: state as u64,
                steps: self.steps,
            }),
            Err(refused) => Ok(Stepped::Refused(told(refused)?)),
        }
    }
}
