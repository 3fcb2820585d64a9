ghost use Rattle.std.specs.Prelude.{◌≡◌, length};
ghost use Rattle.std.specs.List.{list_any};
ghost use Rattle.rt_desk.specs.Forcing.{is_of};
ghost use Rattle.rt_pause.specs.Forced.{segments_of};

use rt_pause::ReplicaSeen;

/// The number of segments of some replicas. There are few replicas, so each is compared with those before it.
pub(crate) fn count_segments(replicas: &[ReplicaSeen]) -> usize
    ensures { result ≡ length (segments_of replicas.now) }
{
    let mut count = 0;
    let mut at = 0;
    while at < replicas.len() {
        if !has_segment(&replicas[..at], replicas[at]) {
            count += 1;
        }
        at += 1;
    }
    count
}

// Whether one of some replicas is of this one's segment.
fn has_segment(replicas: &[ReplicaSeen], replica: ReplicaSeen) -> bool
    ensures { result ≡ list_any (is_of replica) replicas.now }
{
    for other in replicas {
        if replica.partition == other.partition && replica.sequence == other.sequence {
            return true;
        }
    }
    false
}
