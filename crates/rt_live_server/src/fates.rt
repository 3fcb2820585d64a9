//! A server crashes and comes up again.
ghost use Rattle.std.specs.Prelude.{◌≡◌, ◌<◌, ◌-◌, ◌^◌, false, length};
ghost use Rattle.rt_live_server.specs.Acting.{Quietly};

use crate::acting::Acting;
use crate::did::ServerDid;
use rt_entry::ServerRefused;
use rt_ground::Naming;
use rt_live_names::Cluster;
use std::alloc::Global;
use std::sync::Wait;

impl<R, J: Naming, K: Cluster> Acting<R, J, K> {
    /// Loses all that it held in memory, and is down.
    pub(crate) fn crash(&mut self)
        requires { length self.old.did < 2 ^ 64 - 1 }
        ensures { Quietly self.old self.new }
    {
        self.server.crash();
        self.up = false;
        ServerDid::Crashed.note(&mut self.diary);
    }
}

impl<R: Wait + Copy, J: Naming, K: Cluster> Acting<R, J, K> {
    /// A server that is down comes up again, and answers its incarnation; where it is refused, it stays down.
    pub(crate) fn restart(&mut self, alloc: Global) -> Result<u64, ServerRefused>
        requires room { length self.old.did < 2 ^ 64 - 1 }
        requires down { self.old.up ≡ false }
        ensures { Quietly self.old self.new }
    {
        let result = self.server.restart(alloc, &mut self.caller.store);
        let told = self.caller.store.front().told();
        self.up = result.is_ok();
        ServerDid::Restarted { told, result }.note(&mut self.diary);
        result
    }
}
