use rt_base::{Instance, Partition, Sequence};
use rt_link::{Envelope, Inbox, Post};
use rt_model::{Reply, ReplyStatus, RequestNumber};
use std::sync::Wait;
use std::sync::atomic::{AtomicU64, Ordering};
use std::thread;

/// How many threads offer envelopes.
pub const SENDERS: u32 = 4;

/// How many envelopes each of them offers.
pub const OFFERED: u64 = 100_000;

/// What one thread does: it offers envelopes, or takes until all who offer have ended.
#[derive(Drop)]
pub enum Role {
    /// With how many envelopes were lost to a full queue.
    Offers(Post, u64),
    Takes(Inbox),
}

impl Role {
    /// Does its part.
    pub fn run<R: Wait>(&mut self, rt: &R, ended: &AtomicU64) {
        match self {
            Role::Offers(post, lost) => {
                *lost = offer(rt, post);
                ended.fetch_add(1, Ordering::SeqCst);
            }
            Role::Takes(inbox) => take_all(rt, inbox, ended),
        }
    }
}

/// An envelope of this count.
pub fn envelope(count: u64) -> Envelope {
    Envelope::Replies(Reply {
        number: RequestNumber {
            instance: Instance(0),
            incarnation: 0,
            count,
        },
        partition: Partition(0),
        sequence: Sequence(0),
        status: ReplyStatus::Processed,
    })
}

/// The count of such an envelope.
pub fn count_of(envelope: &Envelope) -> u64 {
    match envelope {
        Envelope::Asks(request) => request.number.count,
        Envelope::Replies(reply) => reply.number.count,
    }
}

/// Offers all envelopes, and answers how many were lost to a full queue.
fn offer<R: Wait>(rt: &R, post: &mut Post) -> u64 {
    let mut lost = 0u64;
    for number in 0..OFFERED {
        if post.post(rt, envelope(number)).is_err() {
            lost = lost.saturating_add(1);
            thread::yield_now();
        }
    }
    lost
}

/// Takes until all who offer have ended and nothing is left.
fn take_all<R: Wait>(rt: &R, inbox: &mut Inbox, ended: &AtomicU64) {
    for _ in rt.forever() {
        let all_ended = ended.load(Ordering::SeqCst) == u64::from(SENDERS);
        if inbox.take(rt).is_none() {
            if all_ended {
                return;
            }
            thread::yield_now();
        }
    }
    unreachable!()
}
