ghost use Rattle.std.specs.Prelude.{◌≡◌, [], ◌∷◌, ◌++◌, false, IfOk, OnOk, string_bytes};
ghost use Rattle.rt_desk.specs.Forcing.{ForceCommitTold, ForceStatusTold, ForcesAll, ForcesOne, PauseTold, PendingTold, ResumeTold, nodes_in, with_job};
ghost use Rattle.rt_desk.specs.Telling.{DoesChange, changed};
ghost use Rattle.rt_macros.specs.Doing.{Does, DoesText};
ghost use Rattle.rt_pause.specs.Forced.{segments_of};

use crate::counting::count_segments;
use rt_base::Partition;
use rt_lists::Items;
use rt_macros::{act, pass};
use rt_model::Listed;
use rt_pause::{ForceJob, Pause, ReplicaSeen};
use rt_report::{write_forced, write_paused, write_pending, write_resumed};
use rt_world::{Event, Refusal, World};
use std::alloc::{AllocError, Global};

/// `pause`: forces what consumes, and lets no replica begin to consume.
#[tactic(auto, using(rt_macros::proofs::Doing::does_then, rt_macros::proofs::Doing::does_refused, rt_macros::proofs::Doing::does_told))]
pub(crate) fn play_pause(
    alloc: Global,
    world: &mut World,
    pause: &mut Pause,
    text: &mut String,
) -> Result<(), Refusal>
    requires unspent { world.old.spent ≡ false }
    requires empty { string_bytes text.old ≡ [] }
    ensures { DoesChange PauseTold world.old.state world.new (string_bytes text.new) pause.new result }
{
    let forced = force_all(alloc, world)?;
    pause.pause();
    write_paused(text, forced.len() as u64)?;
    Ok(())
}

/// `resume`: lets replicas begin to consume again.
#[tactic(auto, using(rt_macros::proofs::Doing::does_then, rt_macros::proofs::Doing::does_refused, rt_macros::proofs::Doing::does_told))]
pub(crate) fn play_resume(
    world: &mut World,
    pause: &mut Pause,
    text: &mut String,
) -> Result<(), Refusal>
    requires unspent { world.old.spent ≡ false }
    requires empty { string_bytes text.old ≡ [] }
    ensures { DoesChange ResumeTold world.old.state world.new (string_bytes text.new) pause.new result }
{
    pass(world)?;
    pause.resume();
    write_resumed(text)?;
    Ok(())
}

/// `forceCommit`: forces what consumes, and keeps its segments as a job.
#[tactic(auto, using(rt_macros::proofs::Doing::does_then, rt_macros::proofs::Doing::does_refused, rt_macros::proofs::Doing::does_told))]
pub(crate) fn play_force_commit(
    alloc: Global,
    world: &mut World,
    jobs: &mut Items<ForceJob>,
    text: &mut String,
) -> Result<(), Refusal>
    requires unspent { world.old.spent ≡ false }
    requires empty { string_bytes text.old ≡ [] }
    ensures { DoesChange (ForceCommitTold jobs.old) world.old.state world.new (string_bytes text.new) jobs.new result }
{
    let forced = force_all(alloc, world)?;
    keep_job(alloc, jobs, forced.as_slice(), text)?;
    Ok(())
}

// Keeps the segments of the replicas that were forced, and makes the text that is reported of it.
fn keep_job(
    alloc: Global,
    jobs: &mut Items<ForceJob>,
    forced: &[ReplicaSeen],
    text: &mut String,
) -> Result<(), AllocError>
    requires { string_bytes text.old ≡ [] }
    ensures { OnOk result (changed jobs.new (string_bytes text.new) ≡ with_job jobs.old (segments_of forced.now)) }
{
    let number = jobs.len() as u64;
    let count = count_segments(forced) as u64;
    jobs.push(ForceJob::begin(alloc, forced)?)?;
    write_forced(text, number, count)
}

/// `forceStatus fN`: the segments of a job that are in progress.
pub(crate) fn play_force_status(
    alloc: Global,
    world: &mut World,
    jobs: &Items<ForceJob>,
    number: u64,
    text: &mut String,
) -> Result<(), Refusal>
    requires unspent { world.old.spent ≡ false }
    requires empty { string_bytes text.old ≡ [] }
    ensures { DoesText (ForceStatusTold jobs.now number) world.old.state world.new (string_bytes text.new) result }
{
    match jobs.as_slice().get(number as usize) {
        Some(job) => tell_pending(alloc, world, number, job, text),
        None => Err(Refusal::NoSuchMessage),
    }
}

#[tactic(auto, using(rt_macros::proofs::Doing::does_then, rt_macros::proofs::Doing::does_refused, rt_macros::proofs::Doing::does_told))]
fn tell_pending(
    alloc: Global,
    world: &mut World,
    number: u64,
    job: &ForceJob,
    text: &mut String,
) -> Result<(), Refusal>
    requires unspent { world.old.spent ≡ false }
    requires empty { string_bytes text.old ≡ [] }
    ensures { DoesText (PendingTold number job.now) world.old.state world.new (string_bytes text.new) result }
{
    pass(world)?;
    let nodes = present_nodes(alloc, world)?;
    let pending = job.pending(alloc, nodes.as_slice())?;
    write_pending(text, number, pending.as_slice())?;
    Ok(())
}

// The present metadata nodes of each partition.
fn present_nodes(alloc: Global, world: &World) -> Result<Items<Items<Listed>>, AllocError>
    ensures { IfOk result (λ nodes. nodes ≡ nodes_in world.now.state) }
{
    let partitions = world.setup().partitions;
    let mut nodes = Items::new(alloc);
    let mut at = 0;
    while at < partitions {
        nodes.push(world.nodes(alloc, Partition(at))?)?;
        at += 1;
    }
    Ok(nodes)
}

// The event `force` for each replica for which it is due; those that were forced.
#[tactic(auto, using(rt_macros::proofs::Doing::leads_itself))]
fn force_all(alloc: Global, world: &mut World) -> Result<Items<ReplicaSeen>, Refusal>
    requires { world.old.spent ≡ false }
    ensures { Does ForcesAll world.old.state world.new result }
{
    let replicas = world.replicas(alloc)?;
    let mut forced = Items::new(alloc);
    for replica in replicas.as_slice() {
        match force_one(alloc, world, *replica, forced) {
            Ok(now) => forced = now,
            Err(refusal) => return Err(refusal),
        }
    }
    Ok(forced)
}

// Forces a replica where that is due, and notes it.
fn force_one(
    alloc: Global,
    world: &mut World,
    replica: ReplicaSeen,
    noted: Items<ReplicaSeen>,
) -> Result<Items<ReplicaSeen>, Refusal>
    requires { world.old.spent ≡ false }
    ensures { Does (ForcesOne replica noted) world.old.state world.new result }
{
    let force = Event::Force {
        instance: replica.instance,
        partition: replica.partition,
        sequence: replica.sequence,
    };
    match act(alloc, world, force) {
        Ok(outcome) => {
            drop(outcome);
            Ok(noted_more(noted, replica)?)
        }
        Err(Refusal::NothingToDo) => Ok(noted),
        Err(Refusal::NoSuchMessage) => Err(Refusal::NoSuchMessage),
        Err(Refusal::NoSuchNode) => Err(Refusal::NoSuchNode),
        Err(Refusal::NodeDown) => Err(Refusal::NodeDown),
        Err(Refusal::Limit(which)) => Err(Refusal::Limit(which)),
        Err(Refusal::Memory) => Err(Refusal::Memory),
    }
}

fn noted_more(
    noted: Items<ReplicaSeen>,
    replica: ReplicaSeen,
) -> Result<Items<ReplicaSeen>, AllocError>
    ensures { IfOk result (λ noted_now. noted_now ≡ noted ++ replica ∷ []) }
{
    let mut noted = noted;
    noted.push(replica)?;
    Ok(noted)
}
