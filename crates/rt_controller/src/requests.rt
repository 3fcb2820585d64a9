//! A controller answers a request.

use crate::answers::{abandoned_row, claimed, committed_row, fails, first_state, replies};
use crate::segment_machine::{add, machine_place, react_at};
use crate::starting::{follow, leads_to, named_file};
use crate::{Controller, Handled, SegmentMachine};
use rt_base::Moment;
use rt_base::limits::LAST_NUMBER;
use rt_deep::{DeepRefused, DeepStore};
use rt_fsm::Machine;
use rt_lists::{Bytes, Text};
use rt_model::{
    Ask, FailCause, Key, Node, ReplyStatus, Request, RequestKind, Seen, SeenMeta, Status,
};
use rt_store::{Store, StoreRefused};
use std::alloc::{AllocError, Global};

impl Controller {
    ghost use Rattle.std.specs.Prelude.{◌<◌, ◌^◌, ℕ, Some, length, slice_get};
    ghost use Rattle.rt_base.specs.declared.numbers.Moment.{Moment};
    ghost use Rattle.rt_store.specs.Meaning.{Meaning};
    ghost use Rattle.rt_commit.specs.Calls.{DeepMeaning};
    ghost use Rattle.rt_controller.specs.Answers.{after_put};
    ghost use Rattle.rt_controller.specs.Requests.{after_read, asked_turn, at_machine, by_node, by_status, opens, uploads};
    ghost use Rattle.rt_controller.specs.Steps.{Handles, HandlesAt, Hands, HandsRead, Tells};

    /// Answers by the first rule that applies.
    pub(crate) fn take_request<S: Store, D: DeepStore>(
        &mut self,
        alloc: Global,
        request: &Request,
        now: Moment,
        store: &mut S,
        deep: &mut D,
    ) -> Result<Handled, AllocError>
        requires { self.old.started < 2 ^ 63 }
        ensures { Handles (S.meaning store.old) (S.meaning store.new) (D.meaning deep.old) (D.meaning deep.new)
            self.old request.now now self.new result }
    {
        if !self.leads {
            return Ok(replies(request, ReplyStatus::NotLeader));
        }
        match &request.kind {
            RequestKind::Upload { path, bytes } => self.upload(alloc, request, path, bytes, deep),
            RequestKind::Consumed(reason) => {
                let ask = Ask::Consumed {
                    offset: request.offset,
                    reason: *reason,
                };
                self.ask(alloc, request, ask, now, store)
            }
            RequestKind::Stopped => self.ask(alloc, request, Ask::Stopped, now, store),
            RequestKind::CommitStart => {
                let ask = Ask::CommitStart {
                    offset: request.offset,
                };
                self.ask(alloc, request, ask, now, store)
            }
            RequestKind::CommitEnd { .. } => {
                let ask = Ask::CommitEnd {
                    offset: request.offset,
                };
                self.ask(alloc, request, ask, now, store)
            }
            RequestKind::Extend { millis } => {
                self.ask(alloc, request, Ask::Extend { millis: *millis }, now, store)
            }
        }
    }

    /// Puts an uploaded file into the deep store.
    #[tactic(auto, using(crate::proofs::RunningOut::put_ran_out))]
    fn upload<D: DeepStore>(
        &self,
        alloc: Global,
        request: &Request,
        path: &Text,
        bytes: &Bytes,
        deep: &mut D,
    ) -> Result<Handled, AllocError>
        ensures { (s : Meaning) (now : Moment) → HandlesAt s s (D.meaning deep.old) (D.meaning deep.new)
            self.now request.now now (uploads path.now bytes.now) self.now result }
    {
        let told = path.copy(alloc)?;
        let answer = deep.put(alloc, path.as_str(), bytes.as_slice());
        self.after_put(request, told, answer)
    }

    /// What the answer to a put tells.
    fn after_put(
        &self,
        request: &Request,
        path: Text,
        answer: Result<(), DeepRefused>,
    ) -> Result<Handled, AllocError>
        ensures { Tells answer self.now (after_put self.now request.now path answer) result }
    {
        match answer {
            Ok(()) => Ok(replies(request, ReplyStatus::UploadSuccess(path))),
            Err(DeepRefused::Absent) => Ok(fails(request, FailCause::StoreFault)),
            Err(DeepRefused::OtherBytes { kept, .. }) => {
                let wanted = claimed(request, kept);
                let found = None;
                Ok(fails(request, FailCause::BadUpload { wanted, found }))
            }
            Err(DeepRefused::Failed) => Ok(fails(request, FailCause::StoreFault)),
            Err(DeepRefused::Memory) => Err(AllocError),
        }
    }

    /// Answers a request that isn't an upload: by the segment's machine, or by its metadata.
    #[tactic(auto, using(crate::proofs::Parts::asks_none))]
    fn ask<S: Store>(
        &mut self,
        alloc: Global,
        request: &Request,
        ask: Ask,
        now: Moment,
        store: &mut S,
    ) -> Result<Handled, AllocError>
        requires { self.old.started < 2 ^ 63 }
        ensures { (d : DeepMeaning) → HandlesAt (S.meaning store.old) (S.meaning store.new) d d
            self.old request.now now (asked_turn self.old request.now ask) self.new result }
    {
        let (partition, sequence) = (request.partition, request.sequence);
        if !self
            .assignment
            .is_replica(partition, request.number.instance)
        {
            return Ok(fails(request, FailCause::NotReplica));
        }
        if sequence.0 >= LAST_NUMBER {
            return Ok(replies(request, ReplyStatus::Hold));
        }
        match machine_place(self.machines.as_slice(), partition, sequence) {
            Some(place) => self.react(alloc, place, request, ask, now),
            None => {
                let answer = store.read(alloc, Key::Meta(partition, sequence));
                self.after_read(alloc, request, ask, now, answer)
            }
        }
    }

    /// Hands a request to the machine at a place.
    fn react(
        &mut self,
        alloc: Global,
        place: usize,
        request: &Request,
        ask: Ask,
        now: Moment,
    ) -> Result<Handled, AllocError>
        requires place { place < length self.old.machines }
        requires few { self.old.started < 2 ^ 63 }
        ensures { Hands self.old (at_machine self.old request.now now place ask (slice_get self.old.machines place)) self.new result }
    {
        let file = named_file(alloc, request, self.machines[place].machine.seen())?;
        self.jobs.reserve(1)?;
        let sender = request.number.instance;
        let reaction = react_at(&mut self.machines, place, sender, ask, now);
        let next = leads_to(file, reaction);
        Ok(follow(&mut self.jobs, &mut self.started, request, next))
    }

    /// Answers by the metadata that was read.
    fn after_read(
        &mut self,
        alloc: Global,
        request: &Request,
        ask: Ask,
        now: Moment,
        answer: Result<Seen, StoreRefused>,
    ) -> Result<Handled, AllocError>
        requires { self.old.started < 2 ^ 63 }
        ensures { HandsRead answer self.old (after_read self.old request.now now ask answer) self.new result }
    {
        match answer {
            Ok(seen) => self.by_node(alloc, request, ask, now, seen),
            Err(StoreRefused::NoNode) => Ok(fails(request, FailCause::NoSegment)),
            Err(StoreRefused::Exists { .. }) => Ok(fails(request, FailCause::StoreFault)),
            Err(StoreRefused::VersionChanged { .. }) => Ok(fails(request, FailCause::StoreFault)),
            Err(StoreRefused::Failed) => Ok(fails(request, FailCause::StoreFault)),
            Err(StoreRefused::Memory) => Err(AllocError),
        }
    }

    fn by_node(
        &mut self,
        alloc: Global,
        request: &Request,
        ask: Ask,
        now: Moment,
        seen: Seen,
    ) -> Result<Handled, AllocError>
        requires { self.old.started < 2 ^ 63 }
        ensures { Hands self.old (Some (by_node self.old request.now now ask seen.version seen.node)) self.new result }
    {
        let Seen {
            key: _,
            version,
            node,
        } = seen;
        match node {
            Node::Meta(meta) => {
                self.by_status(alloc, request, ask, now, SeenMeta { version, meta })
            }
            Node::Ideal(_) => Ok(fails(request, FailCause::NoSegment)),
            Node::Boot => Ok(fails(request, FailCause::NoSegment)),
            Node::Gone => Ok(fails(request, FailCause::NoSegment)),
        }
    }

    fn by_status(
        &mut self,
        alloc: Global,
        request: &Request,
        ask: Ask,
        now: Moment,
        seen: SeenMeta,
    ) -> Result<Handled, AllocError>
        requires { self.old.started < 2 ^ 63 }
        ensures { Hands self.old (Some (by_status self.old request.now now ask seen seen.meta.status)) self.new result }
    {
        match &seen.meta.status {
            Status::InProgress => self.open(alloc, request, ask, now, seen),
            Status::Done(commit) => {
                let end = commit.end;
                Ok(replies(request, committed_row(seen, end, ask)))
            }
            Status::Abandoned => Ok(replies(request, abandoned_row(ask))),
        }
    }

    /// Makes a machine for a segment in progress, and hands it the request.
    fn open(
        &mut self,
        alloc: Global,
        request: &Request,
        ask: Ask,
        now: Moment,
        seen: SeenMeta,
    ) -> Result<Handled, AllocError>
        requires { self.old.started < 2 ^ 63 }
        ensures { Hands self.old (Some (opens self.old request.now now ask seen)) self.new result }
    {
        let file = named_file(alloc, request, &seen)?;
        let replicas = self.assignment.replicas(alloc, request.partition)?;
        let state = first_state(ask);
        let machine = Machine::make(alloc, seen, replicas.as_slice(), state, now)?;
        self.machines.reserve(1)?;
        self.jobs.reserve(1)?;
        let mut kept = SegmentMachine {
            partition: request.partition,
            sequence: request.sequence,
            machine,
        };
        let reaction = kept.on(request.number.instance, ask, now);
        add(&mut self.machines, kept);
        let next = leads_to(file, reaction);
        Ok(follow(&mut self.jobs, &mut self.started, request, next))
    }
}
