ghost use Rattle.std.specs.Prelude.{◌≡◌, ◌<◌, ◌≤◌, ◌^◌, All, length, IfOk};
ghost use Rattle.rt_live_links.specs.Counted.{queue, queues, queues_of};

use crate::node_links::NodeLinks;
use rt_link::{Inbox, Post};
use rt_lists::Items;
use rt_live_output::Queue;
use std::alloc::{AllocError, Global};

/// Counts the queues of each of these senders, one to each of these receivers.
pub(crate) fn count_queues(
    alloc: Global,
    senders: &[NodeLinks],
    receivers: &[NodeLinks],
) -> Result<Items<Items<Queue>>, AllocError>
    requires few { length senders.now < 2 ^ 32 }
    requires posts { All (λ sender. length sender.posts.items ≤ length receivers.now) senders.now }
    ensures { IfOk result (λ counts. counts ≡ queues senders.now receivers.now) }
{
    let mut counts = Items::new(alloc);
    for (number, sender) in senders.iter().enumerate() {
        counts.push(count_queues_of(alloc, number as u32, &sender.posts, receivers)?)?;
    }
    Ok(counts)
}

// Counts the queues of one sender.
fn count_queues_of(
    alloc: Global,
    sender: u32,
    posts: &[Post],
    receivers: &[NodeLinks],
) -> Result<Items<Queue>, AllocError>
    requires { length posts.now ≤ length receivers.now }
    ensures { IfOk result (λ counts. counts ≡ queues_of sender posts.now receivers.now) }
{
    let mut counts = Items::new(alloc);
    for (receiver, post) in posts.iter().enumerate() {
        counts.push(counted(sender, post, &receivers[receiver].inbox))?;
    }
    Ok(counts)
}

// Counts a queue.
fn counted(sender: u32, post: &Post, inbox: &Inbox) -> Queue
    ensures { result ≡ queue sender post.now inbox.now }
{
    Queue {
        accepted: post.accepted(),
        taken: inbox.taken(sender),
    }
}
