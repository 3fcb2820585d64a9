//! Which replicas have nothing to do in their turn. Most of those that a long run holds have committed: one walk leaves those
//! that stand side by side out, where each would be looked up and asked what it has to do next.
ghost use Rattle.std.specs.Prelude.{◌≡◌, nat_lt};
ghost use Rattle.std.specs.List.{prefix_len};
ghost use Rattle.rt_macros.specs.Resting.{rests_at};

use rt_base::{Instance, Partition, Sequence};
use rt_world::World;

/// How many of the first segments of a list have replicas at rest.
#[tactic(auto, using(crate::proofs::Passed::known_rest))]
pub(crate) fn resting(
    world: &World,
    instance: Instance,
    segments: &[(Partition, Sequence)],
) -> usize
    ensures { result ≡ prefix_len (rests_at world.now.state instance) segments.now }
{
    let passed = world.resting(instance, segments);
    known(&segments[..passed], world.setup().partitions)
}

// How many of the first segments of a list are of partitions below a number.
fn known(segments: &[(Partition, Sequence)], partitions: u32) -> usize
    ensures { result ≡ prefix_len (λ s. nat_lt s.0.0 partitions) segments.now }
{
    for (at, segment) in segments.iter().enumerate() {
        if segment.0.0 >= partitions {
            return at;
        }
    }
    segments.len()
}
