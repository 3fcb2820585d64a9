//! Nodes crash, and are up again.
ghost use Rattle.std.specs.Prelude.{◌≡◌, IfOk, OnErr};
ghost use Rattle.rt_nodes.specs.Lives.{node_crashed, controller_crashed, controller_restarted, NodeRestarts};

use crate::servers::failed;
use crate::{ControllerNode, ServerNode};
use rt_events::Outcome;
use rt_store::MemoryStore;
use std::alloc::{AllocError, Global};

impl ServerNode {
    /// It forgets all but its number, and is down.
    pub fn crash(&mut self)
        ensures { self.new ≡ node_crashed self.old }
    {
        self.server.crash();
        self.up = false;
    }

    /// Bumps the server's boot node. Where the store fails the server stays down. Fails only where memory is refused, with
    /// nothing done.
    #[tactic(auto, using(crate::proofs::Failures::restarts_fail, crate::proofs::Unchanged::restarts_whole))]
    pub fn restart(&mut self, alloc: Global, store: &mut MemoryStore) -> Result<Outcome, AllocError>
        ensures ok { IfOk result (NodeRestarts store.old store.new self.old self.new) }
        ensures err { OnErr result ((self.new ≡ self.old) × (store.new ≡ store.old)) }
    {
        match self.server.restart(alloc, store) {
            Ok(version) => {
                self.up = true;
                Ok(Outcome::Up {
                    incarnation: Some(version),
                })
            }
            Err(refused) => failed(refused),
        }
    }
}

impl ControllerNode {
    /// It forgets its machines, its jobs and its belief, and is down. What is under way for partitions goes on.
    pub fn crash(&mut self)
        ensures { self.new ≡ controller_crashed self.old }
    {
        self.controller.crash();
        self.up = false;
    }

    /// It is up again.
    pub fn restart(&mut self)
        ensures { self.new ≡ controller_restarted self.old }
    {
        self.up = true;
    }
}
