ghost use Rattle.std.specs.Prelude.{◌≡◌, ◌≤◌, IfOk, length};
ghost use Rattle.rt_model.specs.Metadata.{IsDoneStatus};
ghost use Rattle.rt_dryrun.specs.Peers.{FindsFile, file_by, got_from, peer_of};
ghost use Rattle.rt_dryrun.specs.Telling.{Tells};

use crate::PeerFile;
use crate::nodes::{has_partition, has_server, meta_in, others_of};
use crate::server_peer::peers_of;
use rt_base::{Instance, NodeId, Partition, Sequence};
use rt_deep::MemoryDeep;
use rt_events::Refusal;
use rt_model::{SegMeta, Status};
use rt_peer::{Got, PeerRefused, fetch};
use rt_world::World;
use std::alloc::{AllocError, Global};

/// From which server the file of a committed segment would come to one that is up, if the deep store had none: the first of
/// the other servers that are up which has the file that the metadata names. None where no one has it. It is NothingToDo
/// where the segment's node isn't there or isn't Done.
pub fn peer(
    alloc: Global,
    world: &World,
    instance: Instance,
    partition: Partition,
    sequence: Sequence,
) -> Result<Option<PeerFile>, Refusal>
    ensures { Tells (peer_of world.now.state instance partition sequence) result }
{
    if !(has_server(world, instance) && has_partition(world, partition)) {
        return Err(Refusal::NoSuchNode);
    }
    if !world.up(NodeId::Server(instance)) {
        return Err(Refusal::NodeDown);
    }
    let nodes = world.nodes(alloc, partition)?;
    let Some(meta) = meta_in(nodes.as_slice(), sequence) else {
        return Err(Refusal::NothingToDo);
    };
    let others = others_of(alloc, world, instance)?;
    file_by(alloc, world, partition, sequence, meta, others.as_slice())
}

/// The file of a segment from the first of some servers that has it; NothingToDo where the metadata isn't Done.
fn file_by(
    alloc: Global,
    world: &World,
    partition: Partition,
    sequence: Sequence,
    meta: &SegMeta,
    others: &[Instance],
) -> Result<Option<PeerFile>, Refusal>
    requires { length others.now ≤ 4294967295 }
    ensures { Tells (file_by meta.now.status world.now.state partition sequence meta.now others.now) result }
{
    match &meta.status {
        Status::Done(_) => Ok(first_file(alloc, world, partition, sequence, meta, others)?),
        Status::InProgress | Status::Abandoned => Err(Refusal::NothingToDo),
    }
}

/// The file of a committed segment from the first of some servers that has it. Fails only where memory is refused.
fn first_file(
    alloc: Global,
    world: &World,
    partition: Partition,
    sequence: Sequence,
    meta: &SegMeta,
    others: &[Instance],
) -> Result<Option<PeerFile>, AllocError>
    requires done { IsDoneStatus meta.now.status }
    requires few { length others.now ≤ 4294967295 }
    ensures { IfOk result (FindsFile meta.now.status world.now.state partition sequence meta.now others.now) }
{
    let mut deep = MemoryDeep::make(alloc);
    let mut peers = peers_of(alloc, world, others)?;
    match fetch(
        alloc,
        &mut deep,
        partition,
        sequence,
        meta,
        peers.as_mut_slice(),
    ) {
        Ok(got) => Ok(got_from(others, &got)),
        Err(PeerRefused::Nowhere) => Ok(None),
        Err(PeerRefused::Faulted) => Ok(None),
        Err(PeerRefused::Memory) => Err(AllocError),
    }
}

/// What was got from a peer, by the place of its server among those that were asked.
fn got_from(others: &[Instance], got: &Got) -> Option<PeerFile>
    ensures { result ≡ got_from others.now got.now }
{
    let place = got.from?;
    let from = *others.get(place as usize)?;
    Some(PeerFile {
        from,
        rows: got.sealed.rows(),
    })
}
