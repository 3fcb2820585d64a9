ghost use Rattle.std.specs.Prelude.{◌≡◌, ◌<◌, ◌-◌, ◌^◌, true, length};
ghost use Rattle.rt_live_server.specs.Acting.{AddsRequest};

use crate::acting::Acting;
use crate::did::ServerDid;
use rt_base::{Partition, Sequence};
use rt_entry::ServerRefused;
use rt_ground::Naming;
use rt_live_names::Cluster;
use rt_model::Request;
use std::alloc::Global;

impl<R, J: Naming, K: Cluster> Acting<R, J, K> {
    /// The next request of the replica of a segment.
    pub(crate) fn ask(
        &mut self,
        alloc: Global,
        partition: Partition,
        sequence: Sequence,
    ) -> Result<Request, ServerRefused>
        requires room { length self.old.did < 2 ^ 64 - 1 }
        requires number { self.old.server.numbers.made < 2 ^ 63 }
        requires up { self.old.up ≡ true }
        ensures { AddsRequest self.old self.new result }
    {
        let result = self.server.next_request(alloc, partition, sequence);
        let did = ServerDid::Asked {
            partition,
            sequence,
            result,
        };
        self.diary.note(&did);
        match did.into_asked() {
            Some(result) => result,
            None => unreachable!(),
        }
    }
}
