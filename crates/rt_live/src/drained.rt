ghost use Rattle.std.specs.Prelude.{◌≡◌, ◌&&◌};
ghost use Rattle.rt_live.specs.Drained.{all_drained, are_drained, is_drained};

use rt_lists::Items;
use rt_live_output::Queue;

/// Whether all that the queues to the controllers and those to the servers accepted was taken.
pub(crate) fn was_drained(
    to_controllers: &Items<Items<Queue>>,
    to_servers: &Items<Items<Queue>>,
) -> bool
    ensures { result ≡ (all_drained to_controllers.now && all_drained to_servers.now) }
{
    all_drained(to_controllers.as_slice()) && all_drained(to_servers.as_slice())
}

// Whether all that the queues of each sender accepted was taken.
fn all_drained(senders: &[Items<Queue>]) -> bool
    ensures { result ≡ all_drained senders.now }
{
    for queues in senders {
        if !are_drained(queues.as_slice()) {
            return false;
        }
    }
    true
}

// Whether all that the queues of one sender accepted was taken.
fn are_drained(queues: &[Queue]) -> bool
    ensures { result ≡ are_drained queues.now }
{
    for queue in queues {
        if !is_drained(queue) {
            return false;
        }
    }
    true
}

// Whether all that a queue accepted was taken.
fn is_drained(queue: &Queue) -> bool
    ensures { result ≡ is_drained queue.now }
{
    queue.taken == queue.accepted
}
