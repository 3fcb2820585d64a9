ghost use Rattle.std.specs.Prelude.{◌≡◌, ◌<◌, ◌-◌, ◌^◌, [], length, Some, IfOk, IfSome, IsTrue, is_some};
ghost use Rattle.rt_ground.specs.Callers.{new_caller};
ghost use Rattle.rt_link.specs.Ends.{taking};
ghost use Rattle.rt_lists.specs.Members.{Has};
ghost use Rattle.rt_live_controller.specs.ControllerSeat.{
  Answers,
  IsControllerEnded,
  IsShown,
  Journals,
  acts_in,
  first_did,
};
ghost use Rattle.rt_live_controller.specs.Did.{reply_in, replies_of};
ghost use Rattle.rt_live_names.specs.Fronts.{controller_caller, controller_line, fronts, server_line};
ghost use Rattle.rt_live_names.specs.Sending.{ArePosts};
ghost use Rattle.rt_model.specs.Setup.{IsSetup};
ghost use Rattle.rt_model.specs.declared.reply.Reply.{Reply};
ghost use Rattle.rt_store.specs.Contents.{starting_of};

use crate::acting::Acting;
use crate::heard_journal::HeardJournal;
use crate::{ControllerDid, ControllerEnded};
use rt_base::Clock;
use rt_ground::{Caller, Naming};
use rt_link::{Envelope, Inbox};
use rt_lists::Items;
use rt_live_names::{Cluster, Ends, Posts};
use rt_live_output::Heard;
use rt_model::Setup;
use std::alloc::{AllocError, Global};
use std::marker::Model;
use std::sync::Wait;

/// A controller's node.
#[derive(Drop)]
pub struct ControllerSeat<R, J: Naming, K: Cluster> {
    acting: Acting<R, J, K>,
    inbox: Inbox,
    posts: Posts,
    journal: Option<HeardJournal>,
}

impl<R, J: Naming, K: Cluster> Model for ControllerSeat<R, J, K> {
    ghost use Rattle.rt_live_controller.specs.ControllerSeat.{ControllerSeatNow};

    ghost Value = { ControllerSeatNow };

    ghost use Rattle.rt_live_controller.specs.ControllerSeat.{IsControllerSeat};

    ghost view = { λ s. record { acts = s.acting; inbox = s.inbox; posts = s.posts; journal = s.journal } };

    ghost invariant = { λ s. IsControllerSeat K.names (record {
      acts = s.acting;
      inbox = s.inbox;
      posts = s.posts;
      journal = s.journal;
    }) };
}

impl<R: Copy, J: Naming, K: Cluster> ControllerSeat<R, J, K> {
    /// The node of the controller of this number; the first `leaders` believe that they lead. It keeps a journal of what
    /// it hears where one is wanted. Fails only where memory is refused.
    pub fn make(
        alloc: Global,
        setup: &Setup,
        number: u32,
        leaders: u32,
        journal: bool,
        caller: Caller<R, J>,
        inbox: Inbox,
        posts: Posts,
    ) -> Result<Self, AllocError>
        requires setup { (setup.now ≡ K.names.setup) × IsSetup setup.now }
        requires starting { starting_of setup.now ≡ J.starting }
        requires caller { caller ≡ new_caller J.names (controller_caller K.names.setup number) }
        requires inbox { inbox ≡ taking (K.names.lines (controller_line K.names.setup number)) 1024
            K.names.setup.servers [] [] }
        requires posts { ArePosts K.names number server_line [] posts.posts }
        ensures number { IfOk result (λ seat. seat.acts.number ≡ number) }
        ensures leads { IfOk result (λ seat. seat.acts.did ≡ first_did number leaders) }
        ensures journal { IfOk result (λ seat. is_some seat.journal ≡ journal) }
    {
        let mut acting = Acting::make(alloc, setup, number, caller)?;
        if number < leaders {
            acting.lead();
        }
        let journal = if journal {
            Some(HeardJournal::new(alloc))
        } else {
            None
        };
        Ok(ControllerSeat {
            acting,
            inbox,
            posts,
            journal,
        })
    }

    /// Its number among the controllers.
    pub fn number(&self) -> u32
        ensures { result ≡ self.now.acts.number }
    {
        self.acting.number
    }

    /// What it is when the run has ended.
    pub fn into_ended(self, alloc: Global) -> ControllerEnded<R, J>
        ensures number { result.number ≡ self.acts.number }
        ensures ended { IsControllerEnded K.names
            (acts_in result.number result.controller
            (fronts result.caller.store result.caller.deep result.caller.stream) result.diary)
            result.inbox result.posts.items result.heard }
    {
        let ControllerSeat {
            acting,
            inbox,
            posts,
            journal,
        } = self;
        let Acting {
            number,
            controller,
            caller,
            diary,
            ..
        } = acting;
        ControllerEnded {
            number,
            controller,
            caller,
            diary,
            inbox,
            posts: posts.into_posts(),
            heard: heard_in(alloc, journal),
        }
    }
}

impl<R: Wait + Copy, J: Naming, K: Cluster> ControllerSeat<R, J, K> {
    /// One turn: the next step of its unfinished job, or else an envelope where there is one. What it answers is posted
    /// to the server that asked. False where there was nothing to do, a number has reached its last value, or memory was
    /// refused for a job.
    pub fn turn<C: Clock>(&mut self, rt: &R, alloc: Global, clock: &C, ends: &Ends) -> bool {
        if !self.posts.has_room() {
            return false;
        }
        match self.act(rt, alloc, clock, ends) {
            Some(did) => answer(rt, alloc, &mut self.posts, did),
            None => false,
        }
    }

    /// A turn that posts nothing, for the end of a run. False where there is nothing more to do.
    pub fn drain<C: Clock>(&mut self, rt: &R, alloc: Global, clock: &C, ends: &Ends) -> bool {
        match self.act(rt, alloc, clock, ends) {
            Some(did) => keep_back(did),
            None => false,
        }
    }

    fn act<C: Clock>(
        &mut self,
        rt: &R,
        alloc: Global,
        clock: &C,
        ends: &Ends,
    ) -> Option<ControllerDid>
        ensures posts { self.new.posts ≡ self.old.posts }
        ensures answered { IfSome result (λ did. (reply : Reply) → reply_in did ≡ Some reply
            → Has (replies_of self.new.acts.did) reply) }
    {
        if !self.acting.has_room() {
            return None;
        }
        match self.acting.open_job() {
            Some(job) => Some(self.work(alloc, clock, ends, job)),
            None => self.take(rt, alloc, clock, ends),
        }
    }

    // The next step of a job.
    fn work<C: Clock>(&mut self, alloc: Global, clock: &C, ends: &Ends, job: u64) -> ControllerDid
        requires { length self.old.acts.did < 2 ^ 64 - 1 }
        ensures posts { self.new.posts ≡ self.old.posts }
        ensures answered { (reply : Reply) → reply_in result ≡ Some reply → Has (replies_of self.new.acts.did) reply }
    {
        let did = self.acting.work(alloc, clock, job);
        note(alloc, ends, &mut self.journal, &did);
        did
    }

    // The envelope that has been queued longest, where there is one.
    fn take<C: Clock>(
        &mut self,
        rt: &R,
        alloc: Global,
        clock: &C,
        ends: &Ends,
    ) -> Option<ControllerDid>
        requires room { (length self.old.acts.did < 2 ^ 64 - 1) × (self.old.acts.controller.started < 2 ^ 63) }
        ensures posts { self.new.posts ≡ self.old.posts }
        ensures answered { IfSome result (λ did. (reply : Reply) → reply_in did ≡ Some reply
            → Has (replies_of self.new.acts.did) reply) }
    {
        let Some(envelope) = self.inbox.take(rt) else {
            return None;
        };
        let did = self.acting.take(alloc, clock, envelope);
        note(alloc, ends, &mut self.journal, &did);
        Some(did)
    }
}

// Notes what was done in the journal, where one is kept; it is lost where memory is refused for it.
fn note(alloc: Global, ends: &Ends, journal: &mut Option<HeardJournal>, did: &ControllerDid)
    ensures { Journals did.now journal.old journal.new }
{
    if did.ran_out() {
        ends.refuse();
    }
    if !kept(alloc, journal, did) {
        ends.refuse();
        *journal = None;
    }
}

// Whether a journal has what was done, or none is kept.
fn kept(alloc: Global, journal: &mut Option<HeardJournal>, did: &ControllerDid) -> bool
    ensures { IsTrue result → Journals did.now journal.old journal.new }
{
    match journal {
        Some(journal) => journal.note(alloc, did).is_ok(),
        None => true,
    }
}

// Posts the answer, where there is one, to the server that asked. False where nothing was done.
fn answer<R: Wait>(rt: &R, alloc: Global, posts: &mut Posts, did: ControllerDid) -> bool
    requires { posts.old.made < 18446744073709551615 }
    ensures { Answers posts.old posts.new (reply_in did) }
{
    let done = !did.is_idle();
    if let Some(reply) = did.into_reply() {
        let to = reply.number.instance.0;
        posts.send(rt, alloc, to, Envelope::Replies(reply));
    }
    done
}

// Lets the answer go. False where nothing was done.
fn keep_back(did: ControllerDid) -> bool {
    !did.is_idle()
}

// What was heard; none where there is no journal, or memory is refused.
fn heard_in(alloc: Global, journal: Option<HeardJournal>) -> Option<Items<Heard>>
    ensures { IsShown journal result }
{
    match journal?.into_heard(alloc) {
        Ok(heard) => Some(heard),
        Err(_) => None,
    }
}
