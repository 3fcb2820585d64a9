ghost use Rattle.std.specs.Prelude.{◌≡◌, ◌<◌, ◌^◌, IfOk, length};
ghost use Rattle.rt_live_join.specs.Joined.{HasJoined, joined_now};
ghost use Rattle.rt_live_names.specs.Fronts.{callers_of};
ghost use Rattle.rt_model.specs.Setup.{IsSetup};
ghost use Rattle.rt_store.specs.Contents.{starting_of};

use crate::joined::Joined;
use crate::others::ended_others;
use crate::posting::ended_posting;
use crate::putting::put_together;
use rt_ground::{Ground, Naming};
use rt_live_names::Cluster;
use rt_live_nodes::Nodes;
use rt_model::Setup;
use std::alloc::{AllocError, Global};
use std::sync::Wait;

/// Joins the nodes of a cluster that have ended: takes what each had out of its seat, gathers each post into the inbox
/// of its receiver, tells the broker's fronts by the histories of the servers, and meets all callers into one, which is
/// then told what there is. With `journal` it has what each controller heard. Fails only where memory is refused.
///
/// It waits for ever where the nodes aren't those of the setup, each at the place of its number, or the producer hasn't
/// appended all messages.
pub fn join_all<R: Wait + Copy, J: Naming, K: Cluster>(
    rt: &R,
    alloc: Global,
    ground: &Ground<R, J>,
    setup: &Setup,
    nodes: Nodes<R, J, K>,
    journal: bool,
) -> Result<Joined<R, J>, AllocError>
    requires setup { (setup.now ≡ K.names.setup) × IsSetup setup.now }
    requires ground { (starting_of K.names.setup ≡ J.starting) × (J.callers ≡ callers_of K.names.setup) }
    requires few { length K.names.rows < 2 ^ 63 }
    ensures { IfOk result (λ joined. HasJoined K.names J.starting journal (joined_now joined)) }
{
    let Nodes {
        servers,
        controllers,
        repairer,
        broker,
        producer,
        ..
    } = nodes;
    let others = ended_others(rt, producer, repairer, broker);
    match ended_posting(rt, alloc, setup, servers, controllers) {
        Ok(posting) => put_together(rt, alloc, ground, journal, posting, others),
        Err(refused) => {
            drop(others);
            Err(refused)
        }
    }
}
