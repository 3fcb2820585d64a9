ghost use Rattle.std.specs.Prelude.{◌≤◌};

use crate::role::{OFFERED, Role, SENDERS, count_of, envelope};
use rt_link::{Inbox, Post, link};
use std::alloc::{AllocError, Global};
use std::sync::Wait;
use std::sync::atomic::AtomicU64;
use std::thread::{Threads, for_each_mut};

/// What an inbox of one answers to two posts and two takes.
pub fn of_one<R: Wait>(rt: &R, alloc: Global) -> Result<String, AllocError> {
    let (mut inbox, mut posts) = link(alloc, 1, 1)?;
    let Some(mut post) = posts.pop() else {
        return Err(AllocError);
    };
    let first = post.post(rt, envelope(1)).is_ok();
    let back = match post.post(rt, envelope(2)) {
        Ok(()) => false,
        Err((back, _full)) => back == envelope(2),
    };
    let taken = inbox.take(rt) == Some(envelope(1));
    let nothing = inbox.take(rt).is_none();
    let (accepted, took) = (post.accepted(), inbox.taken(0));
    format!(in alloc;
        "post {first}, back where full {back}, take {taken}, then none {nothing}; accepted {accepted}, taken {took}"
    )
}

/// What an inbox of this capacity answers to so many posts of its senders in turn, to one take more than it can hold, and
/// to one post more.
pub fn of_capacity<R: Wait>(
    rt: &R,
    alloc: Global,
    capacity: u32,
    senders: u32,
    posts: u64,
) -> Result<String, AllocError>
    requires capacity { 1 ≤ capacity }
    requires senders { 1 ≤ senders }
{
    let (mut inbox, mut ends) = link(alloc, capacity, senders)?;
    let mut posted = String::new(alloc);
    for number in 0..posts {
        let Some(post) = ends.get_mut((number % u64::from(senders)) as usize) else {
            return Err(AllocError);
        };
        posted.push_str(offered(rt, post, number))?;
    }
    let taken = taken(rt, alloc, &mut inbox, u64::from(capacity) + 1)?;
    let Some(post) = ends.get_mut(0) else {
        return Err(AllocError);
    };
    let after = offered(rt, post, posts);
    format!(in alloc; "post{posted}, take{taken}, post{after}")
}

/// What a post answers to the envelope of this number.
fn offered<R: Wait>(rt: &R, post: &mut Post, number: u64) -> &'static str {
    match post.post(rt, envelope(number)) {
        Ok(()) => " Ok",
        Err((back, _full)) => {
            if back == envelope(number) {
                " Full"
            } else {
                " another"
            }
        }
    }
}

/// The numbers of the envelopes that so many takes give.
fn taken<R: Wait>(
    rt: &R,
    alloc: Global,
    inbox: &mut Inbox,
    takes: u64,
) -> Result<String, AllocError> {
    let mut taken = String::new(alloc);
    for _take in 0..takes {
        let answer = match inbox.take(rt) {
            Some(envelope) => format!(in alloc; " {}", count_of(&envelope))?,
            None => format!(in alloc; " None")?,
        };
        taken.push_str(answer.as_str())?;
    }
    Ok(taken)
}

/// What four threads that offer and one that takes come to.
pub fn of_four<R: Threads + Wait + Send + Sync>(
    rt: &R,
    alloc: Global,
) -> Result<String, AllocError> {
    let (inbox, posts) = link(alloc, 1024, SENDERS)?;
    let mut roles = Vec::new(alloc);
    roles.push(Role::Takes(inbox))?;
    for post in posts {
        roles.push(Role::Offers(post, 0))?;
    }
    let ended = AtomicU64::new(0);
    for_each_mut(rt, roles.as_mut_slice(), 5, &|_, role| role.run(rt, &ended));
    counted(alloc, roles.as_slice())
}

/// Whether what was offered is what was accepted and what was lost, and what was taken is what was accepted.
fn counted(alloc: Global, roles: &[Role]) -> Result<String, AllocError> {
    let mut whole = 0u64;
    let mut accepted = 0u64;
    let mut taken = 0u64;
    for role in roles {
        match role {
            Role::Offers(post, lost) => {
                accepted = accepted.saturating_add(post.accepted());
                if post.accepted().saturating_add(*lost) == OFFERED {
                    whole = whole.saturating_add(1);
                }
            }
            Role::Takes(inbox) => {
                for sender in 0..SENDERS {
                    taken = taken.saturating_add(inbox.taken(sender));
                }
            }
        }
    }
    let all_taken = taken == accepted;
    let some = taken >= 1024;
    format!(in alloc;
        "{whole} senders know what became of {OFFERED} envelopes, all accepted were taken {all_taken}, and some were {some}"
    )
}
