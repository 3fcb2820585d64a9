ghost use Rattle.std.specs.Prelude.{◌≡◌, ◌<◌, ◌≤◌, ◌^◌, IfOk, length};
ghost use Rattle.rt_live_join.specs.Feeding.{AreOfOneHistory};
ghost use Rattle.rt_live_join.specs.Putting.{IsPutTogether, joined_as};
ghost use Rattle.rt_live_links.specs.Gathered.{AreEnds};

use crate::feeding::tell_all;
use crate::joined::Joined;
use crate::meeting::meet_in;
use crate::others::Others;
use crate::posting::Posting;
use crate::showing::{Shown, show};
use rt_ground::{Caller, Ground, Naming};
use rt_lists::Items;
use rt_live_broker::BrokerEnded;
use rt_model::Answer;
use std::alloc::{AllocError, Global};
use std::sync::Wait;

/// Puts together what the nodes left: tells the broker's fronts, gathers the posts, and meets all callers. With
/// `journal` it has what each controller heard. Fails only where memory is refused.
pub(crate) fn put_together<R: Wait + Copy, J: Naming>(
    rt: &R,
    alloc: Global,
    ground: &Ground<R, J>,
    journal: bool,
    posting: Posting<R, J>,
    others: Others<R, J>,
) -> Result<Joined<R, J>, AllocError>
    requires history { AreOfOneHistory posting.servers.own.items others.broker.feeds.items }
    requires some { (1 ≤ length posting.servers.links.items) × (1 ≤ length posting.controllers.links.items) }
    requires few { (length posting.servers.links.items < 2 ^ 32) × (length posting.controllers.links.items < 2 ^ 32) }
    requires servers { AreEnds posting.controllers.links.items posting.servers.links.items }
    requires controllers { AreEnds posting.servers.links.items posting.controllers.links.items }
    ensures { IfOk result (IsPutTogether J.starting J.callers journal posting others) }
{
    let Posting {
        servers,
        controllers,
    } = posting;
    let Others {
        producer,
        repairer,
        broker,
    } = others;
    let BrokerEnded {
        caller,
        feeds,
        mids,
        answers,
    } = broker;
    tell_all(rt, servers.own, feeds);
    let caller = meet_in(
        ground,
        producer,
        servers.callers,
        controllers.callers,
        repairer,
        caller,
    );
    let shown = show(
        alloc,
        journal,
        servers.links,
        controllers.links,
        controllers.own,
    )?;
    Ok(with_answers(caller, shown, mids, answers))
}

// With the broker's answers.
fn with_answers<R: Copy, J: Naming>(
    caller: Caller<R, J>,
    shown: Shown,
    mids: Items<Answer>,
    answers: Items<Answer>,
) -> Joined<R, J>
    ensures { result ≡ joined_as caller shown mids answers }
{
    Joined {
        caller,
        heard: shown.heard,
        to_controllers: shown.to_controllers,
        to_servers: shown.to_servers,
        mids,
        answers,
    }
}
