ghost use Rattle.std.specs.Prelude.{◌≡◌};
ghost use Rattle.rt_script.specs.NodeLines.{crash_of, led_partition_of, repair_of, restart_of, retain_of, see_of};

use crate::words::{controller, instance, node, partition};
use rt_base::{ControllerId, NodeId, Partition};
use rt_events::Event;
use rt_lines::part_at;

/// A partition that a controller looks after.
#[derive(Clone, Copy)]
pub(crate) struct LedPartition {
    pub(crate) controller: ControllerId,
    pub(crate) partition: Partition,
}

/// `sK` or `cK`
pub(crate) fn crash(text: &[u8]) -> Option<Event>
    ensures { result ≡ crash_of text.now }
{
    match node(text)? {
        NodeId::Server(instance) => Some(Event::CrashServer { instance }),
        NodeId::Controller(controller) => Some(Event::CrashController { controller }),
        NodeId::Repairer | NodeId::Broker | NodeId::Producer => None,
    }
}

/// `sK` or `cK`
pub(crate) fn restart(text: &[u8]) -> Option<Event>
    ensures { result ≡ restart_of text.now }
{
    match node(text)? {
        NodeId::Server(instance) => Some(Event::RestartServer { instance }),
        NodeId::Controller(controller) => Some(Event::RestartController { controller }),
        NodeId::Repairer | NodeId::Broker | NodeId::Producer => None,
    }
}

/// `sK`
pub(crate) fn see(text: &[u8]) -> Option<Event>
    ensures { result ≡ see_of text.now }
{
    let instance = instance(text)?;
    Some(Event::See { instance })
}

/// `cK P`
pub(crate) fn repair(text: &[u8]) -> Option<Event>
    ensures { result ≡ repair_of text.now }
{
    let at = led_partition(text)?;
    Some(Event::Repair {
        controller: at.controller,
        partition: at.partition,
    })
}

/// `cK P`
pub(crate) fn retain(text: &[u8]) -> Option<Event>
    ensures { result ≡ retain_of text.now }
{
    let at = led_partition(text)?;
    Some(Event::Retain {
        controller: at.controller,
        partition: at.partition,
    })
}

// `cK P`
fn led_partition(text: &[u8]) -> Option<LedPartition>
    ensures { result ≡ led_partition_of text.now }
{
    let (first, second) = part_at(text, b' ')?;
    let controller = controller(first)?;
    let partition = partition(second)?;
    Some(LedPartition {
        controller,
        partition,
    })
}
