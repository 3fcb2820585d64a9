//! When a message can be taken: a request by a controller, a reply by the server that asked.
ghost use Rattle.std.specs.Prelude.{◌≡◌};
ghost use Rattle.rt_state.specs.Messages.{deliver_due, reply_due};

use crate::{Cost, State};
use rt_base::ControllerId;
use rt_events::Refusal;

impl State {
    /// What it costs that a controller takes a request, or why that can't happen now. Takes no memory.
    pub fn deliver_due(&self, message: u64, controller: ControllerId) -> Result<Cost, Refusal>
        ensures { result ≡ deliver_due self.now message controller }
    {
        if !self.has_controller(controller) {
            return Err(Refusal::NoSuchNode);
        }
        if self.request(message).is_none() {
            return Err(Refusal::NoSuchMessage);
        }
        if !self.is_controller_up(controller) {
            return Err(Refusal::NodeDown);
        }
        self.price(Cost::none())
    }

    /// What it costs that a server takes a reply, or why that can't happen now. Takes no memory.
    pub fn reply_due(&self, message: u64) -> Result<Cost, Refusal>
        ensures { result ≡ reply_due self.now message }
    {
        match self.reply_of(message) {
            Some(reply) => {
                if !self.is_server_up(reply.number.instance) {
                    return Err(Refusal::NodeDown);
                }
                self.price(Cost::none())
            }
            None => Err(Refusal::NoSuchMessage),
        }
    }
}
