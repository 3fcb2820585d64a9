ghost use Rattle.std.specs.Prelude.{◌≡◌, ◌<◌, ◌≤◌, IfOk, nat_lt, slice_get};
ghost use Rattle.rt_live_names.specs.Sending.{Accepts, PostedAt, Sends, is_multiple, times};

use rt_link::{Envelope, Post};
use rt_lists::Copied;
use std::alloc::{AllocError, Global};
use std::marker::Model;
use std::sync::Wait;

/// The posts of one node, one to each of its receivers, and the count of the messages that it made.
#[derive(Drop)]
pub struct Posts {
    posts: Vec<Post>,
    made: u64,
    drop: u64,
    repeat: u64,
}

impl Model for Posts {
    ghost use Rattle.rt_live_names.specs.Sending.{PostsNow};

    ghost Value = { PostsNow };

    ghost view = { λ p. record { posts = p.posts.items; made = p.made; drop = p.drop; repeat = p.repeat } };
}

impl Posts {
    /// The posts of a node that has made no message yet. It doesn't post its message number `drop` nor a multiple of it,
    /// and posts its message number `repeat` and each multiple of it twice; 0 is no number.
    pub fn of(posts: Vec<Post>, drop: u64, repeat: u64) -> Posts
        ensures { result ≡ record { posts = posts.items; made = 0; drop = drop; repeat = repeat } }
    {
        Posts {
            posts,
            made: 0,
            drop,
            repeat,
        }
    }

    /// Whether one more message can be counted.
    pub fn has_room(&self) -> bool
        ensures { result ≡ nat_lt self.now.made 18446744073709551615 }
    {
        self.made < u64::MAX
    }

    /// Makes a message for a receiver. What a full queue gives back is lost, and so is a second copy for which there is no
    /// memory.
    pub fn send<R: Wait>(&mut self, rt: &R, alloc: Global, to: u32, envelope: Envelope)
        requires { self.old.made < 18446744073709551615 }
        ensures { Sends self.old self.new to envelope }
    {
        self.made += 1;
        let often = times(self.drop, self.repeat, self.made);
        post_at(rt, alloc, &mut self.posts, to, often, envelope);
    }

    /// The posts, when the node has ended.
    pub fn into_posts(self) -> Vec<Post>
        ensures { result.items ≡ self.posts }
    {
        self.posts
    }
}

// How often the message of this number is posted.
fn times(drop: u64, repeat: u64, number: u64) -> u8
    ensures { result ≡ times drop repeat number }
{
    if is_multiple(drop, number) {
        0
    } else if is_multiple(repeat, number) {
        2
    } else {
        1
    }
}

// Whether a count is a multiple of a number; 0 is the number of none.
fn is_multiple(number: u64, count: u64) -> bool
    ensures { result ≡ is_multiple number count }
{
    number != 0 && count % number == 0
}

// Posts an envelope so often to a receiver, where there is one of this number.
#[tactic(auto, using(crate::proofs::Posting::posted_some, crate::proofs::Posting::posted_none))]
fn post_at<R: Wait>(
    rt: &R,
    alloc: Global,
    posts: &mut Vec<Post>,
    to: u32,
    often: u8,
    envelope: Envelope,
)
    requires { often ≤ 2 }
    ensures { PostedAt posts.old.items posts.new.items to often envelope
        (slice_get posts.old.items to) }
{
    match posts.get_mut(to as usize) {
        Some(post) => post_often(rt, alloc, post, often, envelope),
        None => lose(envelope),
    }
}

// Posts an envelope at most so often.
fn post_often<R: Wait>(rt: &R, alloc: Global, post: &mut Post, often: u8, envelope: Envelope)
    requires { often ≤ 2 }
    ensures { Accepts post.old post.new often envelope }
{
    match often {
        0 => post_never(post, envelope),
        1 => post_once(rt, post, envelope),
        _ => post_twice(rt, alloc, post, envelope),
    }
}

// Posts no envelope.
#[tactic(auto, using(crate::proofs::Posting::accepts_none))]
fn post_never(post: &mut Post, envelope: Envelope)
    ensures { Accepts post.old post.new 0 envelope }
{
    lose(envelope);
}

// Posts an envelope once, or not at all where the queue is full.
#[tactic(auto, using(crate::proofs::Posting::accepts_none, crate::proofs::Posting::accepts_one))]
fn post_once<R: Wait>(rt: &R, post: &mut Post, envelope: Envelope)
    ensures { Accepts post.old post.new 1 envelope }
{
    let _sent = post.post(rt, envelope);
}

// Posts an envelope and a copy of it.
#[tactic(auto, using(crate::proofs::Posting::accepts_both))]
fn post_twice<R: Wait>(rt: &R, alloc: Global, post: &mut Post, envelope: Envelope)
    ensures { Accepts post.old post.new 2 envelope }
{
    post_copy(rt, alloc, post, &envelope);
    post_once(rt, post, envelope);
}

// Posts a copy of an envelope, or nothing where there is no memory for it.
#[tactic(auto, using(crate::proofs::Posting::accepts_none))]
fn post_copy<R: Wait>(rt: &R, alloc: Global, post: &mut Post, envelope: &Envelope)
    ensures { Accepts post.old post.new 1 envelope.now }
{
    match copied(alloc, envelope) {
        Ok(copy) => post_once(rt, post, copy),
        Err(_) => {}
    }
}

// Lets an envelope go.
fn lose(_envelope: Envelope) {}

// An equal envelope, in memory of its own.
fn copied(alloc: Global, envelope: &Envelope) -> Result<Envelope, AllocError>
    ensures { IfOk result (λ copy. copy ≡ envelope.now) }
{
    match envelope {
        Envelope::Asks(request) => Ok(Envelope::Asks(request.copied(alloc)?)),
        Envelope::Replies(reply) => Ok(Envelope::Replies(reply.copied(alloc)?)),
    }
}
