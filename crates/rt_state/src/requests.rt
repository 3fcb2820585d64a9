//! When a replica can ask something of the controller.
ghost use Rattle.std.specs.Prelude.{◌≡◌};
ghost use Rattle.rt_state.specs.Requests.{report_due, extend_due};

use crate::{Cost, State};
use rt_base::{Instance, Partition, Sequence};
use rt_events::Refusal;

impl State {
    /// What it costs that a replica sends the request that is due, or why that can't happen now. Takes no memory.
    pub fn report_due(
        &self,
        instance: Instance,
        partition: Partition,
        sequence: Sequence,
    ) -> Result<Cost, Refusal>
        ensures { result ≡ report_due self.now instance partition sequence }
    {
        self.find_server(instance, partition)?;
        match self.replica(instance, partition, sequence) {
            Some(replica) => {
                if !replica.request_due() {
                    return Err(Refusal::NothingToDo);
                }
                self.price(Cost::of_upload(replica.upload_bytes()))
            }
            None => Err(Refusal::NothingToDo),
        }
    }

    /// What it costs that a committing replica asks for more time, or why that can't happen now. Takes no memory.
    pub fn extend_due(
        &self,
        instance: Instance,
        partition: Partition,
        sequence: Sequence,
    ) -> Result<Cost, Refusal>
        ensures { result ≡ extend_due self.now instance partition sequence }
    {
        self.find_server(instance, partition)?;
        let due = match self.replica(instance, partition, sequence) {
            Some(replica) => replica.extend_due(),
            None => false,
        };
        if !due {
            return Err(Refusal::NothingToDo);
        }
        self.price(Cost::none())
    }
}
