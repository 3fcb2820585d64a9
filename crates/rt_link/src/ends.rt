ghost use Rattle.std.specs.Prelude.{◌≡◌, ◌+◌, ◌≤◌, ◌<◌, [], map, IfOk, OnOk};
ghost use Rattle.std.specs.List.{range_with_len};
ghost use Rattle.rt_link.specs.Ends.{sending, taking};

use crate::inbox::Inbox;
use crate::post::Post;
use crate::rule::{Line, Makes};
use std::alloc::{AllocError, Global};
use std::sync::Arc;

/// Makes a queue for so many envelopes with its owner's end and this many senders' ends; a sender's number is the place
/// of its post in the list. No call on them takes memory.
pub fn link(alloc: Global, capacity: u32, senders: u32) -> Result<(Inbox, Vec<Post>), AllocError>
    requires capacity { 1 ≤ capacity }
    requires senders { 1 ≤ senders }
    ensures inbox { IfOk result (λ r. r.0 ≡ taking r.0.line capacity senders [] []) }
    ensures posts { IfOk result (λ r. r.1.items
        ≡ map (λ k. sending r.0.line capacity k []) (range_with_len 0 senders)) }
{
    let mut inbox = new_inbox(alloc, capacity)?;
    let mut posts = Vec::with_capacity(alloc, senders as usize)?;
    for number in 0..senders {
        posts.push_reserved(new_post(&mut inbox, number)?);
    }
    Ok((inbox, posts))
}

/// An owner's end, for which no sender was made yet.
fn new_inbox(alloc: Global, capacity: u32) -> Result<Inbox, AllocError>
    requires { 1 ≤ capacity }
    ensures { IfOk result (λ inbox. inbox ≡ taking inbox.line capacity 0 [] []) }
{
    let (line, ticket) = Line::ruled(alloc, capacity as usize)?;
    Ok(Inbox {
        line: Arc::new(alloc, line)?,
        ticket,
        counts: Vec::new(alloc),
    })
}

/// The end of the next sender. Nothing was accepted of any sender yet.
fn new_post(inbox: &mut Inbox, number: u32) -> Result<Post, AllocError>
    requires { inbox.old ≡ taking inbox.old.line inbox.old.capacity number [] [] }
    ensures inbox { OnOk result (inbox.new ≡ taking inbox.old.line inbox.old.capacity (number + 1) [] []) }
    ensures post { IfOk result (λ post. post ≡ sending inbox.old.line inbox.old.capacity number []) }
{
    let line = Arc::try_clone(&inbox.line)?;
    inbox.counts.push(0)?;
    let ticket = inbox.line.another::<Makes>(&mut inbox.ticket);
    Ok(Post {
        line,
        ticket,
        from: number,
        count: 0,
    })
}
