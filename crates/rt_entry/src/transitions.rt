//! When an entry's transition is due, and what a read of its segment's node tells.
ghost use Rattle.std.specs.Prelude.{◌≡◌, Some, option_copied};
ghost use Rattle.rt_entry.specs.Transition.{is_due, metadata_by, metadata_in};

use crate::{Entry, ServerRefused};
use rt_model::{Mode, Node, Seen, SeenMeta};
use rt_store::StoreRefused;

/// Whether a transition of an entry to a target is due.
pub fn is_due(mode: Mode, entry: Option<&Entry>) -> bool
    ensures { result ≡ is_due (Some mode) (option_copied entry.entry) }
{
    match (mode, entry) {
        (Mode::Consuming, None) => true,
        (Mode::Consuming, Some(_)) => false,
        (Mode::Online, None) => true,
        (Mode::Online, Some(entry)) => entry.is_open(),
        (Mode::Offline, None) => false,
        (Mode::Offline, Some(_)) => true,
    }
}

/// What a read of a segment's node tells: its metadata, or that there is no node.
pub fn metadata_in(answer: Result<Seen, StoreRefused>) -> Result<Option<SeenMeta>, ServerRefused>
    ensures { result ≡ metadata_in answer }
{
    match answer {
        Ok(seen) => Ok(metadata_by(seen)),
        Err(StoreRefused::Failed) => Err(ServerRefused::StoreFault),
        Err(StoreRefused::Memory) => Err(ServerRefused::Memory),
        Err(_) => Ok(None),
    }
}

fn metadata_by(seen: Seen) -> Option<SeenMeta>
    ensures { result ≡ metadata_by seen.version seen.node }
{
    let Seen { version, node, .. } = seen;
    match node {
        Node::Meta(meta) => Some(SeenMeta { version, meta }),
        _ => None,
    }
}
