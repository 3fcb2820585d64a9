//! What a run has come to, once its nodes were joined.
ghost use Rattle.std.specs.Prelude.{◌≡◌, IfOk, IsTrue, length, string_bytes, true};
ghost use Rattle.rt_live.specs.Run.{HasRunBy};
ghost use Rattle.rt_live_join.specs.Joined.{HasJoined, joined_now};
ghost use Rattle.rt_live_join.specs.Left.{fronts_by};
ghost use Rattle.rt_live_names.specs.Fronts.{callers_of};
ghost use Rattle.rt_live_names.specs.Whole.{lengths_in};
ghost use Rattle.rt_store.specs.Contents.{starting_of};

use crate::committed::ends_of;
use crate::drained::was_drained;
use crate::history::whole_history;
use crate::ran::Ran;
use crate::told::told;
use rt_base::Offset;
use rt_ground::{Ground, Naming};
use rt_link::never;
use rt_live_join::Joined;
use rt_live_names::Cluster;
use std::alloc::{AllocError, Global};
use std::sync::Wait;

/// What a run has come to whose nodes were joined. All of the input is committed, each query is answered, and all queues are
/// drained, so that it never waits. Fails only where memory is refused.
pub(crate) fn tell<R: Wait + Copy, J: Naming, K: Cluster>(
    rt: &R,
    alloc: Global,
    ground: &Ground<R, J>,
    partitions: u32,
    lengths: &[Offset],
    queries: usize,
    journal: bool,
    joined: Joined<R, J>,
) -> Result<Ran<R, J>, AllocError>
    requires partitions { partitions ≡ K.names.setup.partitions }
    requires lengths { lengths.now ≡ lengths_in K.names.setup.partitions K.names.rows }
    requires queries { queries ≡ length K.names.queries }
    requires ground { (starting_of K.names.setup ≡ J.starting) × (J.callers ≡ callers_of K.names.setup) }
    requires joined { HasJoined K.names J.starting journal (joined_now joined) }
    ensures { IfOk result (λ ran. HasRunBy K.names journal ran.ends.items (fronts_by ran.caller)
        (string_bytes ran.text)) }
{
    let mut joined = joined;
    let writes = whole_history(alloc, ground, &mut joined.caller)?;
    let ends = ends_of(alloc, partitions, &writes)?;
    if !are_same(&ends, lengths)
        || !answers_all(queries, journal, joined.answers.len(), joined.mids.len())
        || !was_drained(&joined.to_controllers, &joined.to_servers)
    {
        return never(rt);
    }
    told(alloc, journal, joined, writes, ends)
}

// Whether each end is the length at its place.
fn are_same(ends: &[Offset], lengths: &[Offset]) -> bool
    ensures { IsTrue result → ends.now ≡ lengths.now }
{
    ends == lengths
}

// Whether there is an answer to each of so many queries, and a first one too, where a journal is asked for.
fn answers_all(queries: usize, journal: bool, answers: usize, mids: usize) -> bool
    ensures answers { IsTrue result → answers ≡ queries }
    ensures mids { IsTrue result → journal ≡ true → mids ≡ queries }
{
    answers == queries && (!journal || mids == queries)
}
