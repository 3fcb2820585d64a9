//! The wanted file of a segment is loaded.
ghost use Rattle.rt_server.specs.Download.{Downloads};

use crate::table::Table;
use rt_base::{Partition, Sequence};
use rt_deep::DeepStore;
use rt_entry::ServerRefused;
use rt_schema::Schema;
use std::alloc::Global;

impl Table {
    /// Loads the wanted file of a segment, and answers the number of its rows. Where it is refused, all is as before.
    #[tactic(auto, using(crate::proofs::Loaded::downloads, crate::proofs::Loaded::downloads_none))]
    pub(crate) fn download<D: DeepStore>(
        &mut self,
        alloc: Global,
        schema: &Schema,
        partition: Partition,
        sequence: Sequence,
        deep: &mut D,
    ) -> Result<u32, ServerRefused>
        ensures { Downloads (D.meaning deep.old) (D.meaning deep.new) schema.now self.old self.new partition sequence result }
    {
        let Some(entry) = self.entries.get_mut(&(partition, sequence)) else {
            return Err(ServerRefused::NotDue);
        };
        entry.load(alloc, schema, partition, sequence, deep)
    }
}
