ghost use Rattle.std.specs.Prelude.{◌≡◌, IfOk};
ghost use Rattle.rt_model.specs.Setup.{IsSetup};
ghost use Rattle.rt_state.specs.Start.{start};

use crate::Counts;
use rt_base::Moment;
use rt_broker::Asked;
use rt_deep::MemoryDeep;
use rt_lists::Items;
use rt_model::{Sent, Setup};
use rt_nodes::{ControllerNode, ServerNode, first_controllers, first_servers};
use rt_store::MemoryStore;
use rt_stream::StreamLog;
use std::alloc::{AllocError, Global};

/// Everything that there is in a cluster.
#[derive(Drop)]
pub struct State {
    pub setup: Setup,
    /// The stream: for each partition, its messages.
    pub log: StreamLog,
    pub store: MemoryStore,
    pub deep: MemoryDeep,
    /// Every message ever sent. A loss is a message that isn't delivered.
    pub sent: Items<Sent>,
    pub servers: Items<ServerNode>,
    pub controllers: Items<ControllerNode>,
    /// The queries by number; one that was answered is no more there.
    pub queries: Items<Option<Asked>>,
    /// The present moment.
    pub moment: Moment,
    pub counts: Counts,
}

impl State {
    /// The first state of a cluster within the limits.
    pub fn start(alloc: Global, setup: Setup) -> Result<State, AllocError>
        requires { IsSetup setup }
        ensures { IfOk result (λ w. w ≡ start setup) }
    {
        let log = StreamLog::make(alloc, setup.partitions)?;
        let store = MemoryStore::make(alloc, &setup)?;
        let servers = first_servers(alloc, &setup)?;
        let controllers = first_controllers(alloc, &setup)?;
        let moment = setup.start;
        let stored = u64::from(setup.partitions) * u64::from(setup.table.replication);
        Ok(State {
            setup,
            log,
            store,
            deep: MemoryDeep::make(alloc),
            sent: Items::new(alloc),
            servers,
            controllers,
            queries: Items::new(alloc),
            moment,
            counts: Counts {
                events: 0,
                uploads: 0,
                unanswered: 0,
                stored,
            },
        })
    }
}
