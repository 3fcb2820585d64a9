ghost use Rattle.std.specs.Prelude.{◌≡◌, IfOk, map};
ghost use Rattle.rt_dryrun.specs.Peers.{server_copy};

use rt_base::{Instance, Partition, Sequence};
use rt_lists::Bytes;
use rt_peer::{Peer, PeerFault};
use rt_world::World;
use std::alloc::{AllocError, Global};
use std::marker::Model;

/// A server of a world as a peer: it has the files of its sealed committed segments.
#[derive(Drop)]
pub(crate) struct ServerPeer<'a> {
    world: &'a World,
    instance: Instance,
}

impl<'a> Model for ServerPeer<'a> {
    ghost use Rattle.rt_dryrun.specs.Peers.{ServerCopy};
    ghost use Rattle.rt_model.specs.contracts.query.Query.{the_row as query_row};
    ghost use Rattle.std.specs.Coded.{codes};

    ghost Value = { ServerCopy };

    ghost coded = { Prim.hlevel (codes, query_row.coded) };

    ghost view = { λ a. record { world = a.world.now.state; instance = a.instance } };
}

impl<'a> ServerPeer<'a> {
    /// A server of a world.
    pub(crate) fn of(world: &'a World, instance: Instance) -> Self
        ensures { result ≡ server_copy world.now.state instance }
    {
        ServerPeer { world, instance }
    }
}

impl<'a> Peer for ServerPeer<'a> {
    ghost use Rattle.rt_dryrun.specs.Peers.{peer_meaning};

    ghost meaning = { peer_meaning };

    fn copy(
        &mut self,
        alloc: Global,
        partition: Partition,
        sequence: Sequence,
    ) -> Result<Option<Bytes>, PeerFault> {
        match self
            .world
            .copy_of(alloc, self.instance, partition, sequence)?
        {
            Some(bytes) => Ok(Some(Bytes::of(bytes))),
            None => Ok(None),
        }
    }
}

/// The servers of some numbers as peers, in order. Fails only where memory is refused.
pub(crate) fn peers_of<'a>(
    alloc: Global,
    world: &'a World,
    others: &[Instance],
) -> Result<Vec<ServerPeer<'a>>, AllocError>
    ensures { IfOk result (λ peers. peers.items ≡ map (server_copy world.now.state) others.now) }
{
    let mut peers = Vec::new(alloc);
    for other in others {
        peers.push(ServerPeer::of(world, *other))?;
    }
    Ok(peers)
}
