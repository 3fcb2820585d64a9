ghost use Rattle.std.specs.Prelude.{◌≡◌, ◌<◌, ◌-◌, ◌^◌, [], ◌∷◌, ◌++◌, length, IfOk, IsTrue};
ghost use Rattle.rt_ground.specs.Callers.{new_caller};
ghost use Rattle.rt_live_controller.specs.ControllerSteps.{IsPassed};
ghost use Rattle.rt_live_controller.specs.Did.{envelopes_in};
ghost use Rattle.rt_live_controller.specs.declared.controller_did.ControllerDid.TheVariants.{Believed};
ghost use Rattle.rt_live_names.specs.Fronts.{controller_caller};
ghost use Rattle.rt_link.specs.declared.envelope.Envelope.TheVariants.{Asks};
ghost use Rattle.rt_model.specs.Setup.{IsSetup};
ghost use Rattle.rt_store.specs.Contents.{starting_of};

use crate::ControllerDid;
use rt_base::{Clock, ControllerId, Moment};
use rt_controller::Controller;
use rt_diary::Diary;
use rt_ground::{Caller, Naming};
use rt_link::Envelope;
use rt_live_names::{Cluster, moment};
use rt_model::{Request, Setup};
use std::alloc::{AllocError, Global};
use std::marker::{Model, PhantomData};
use std::sync::Wait;

/// A controller, its caller, and all that it did.
#[derive(Drop)]
pub struct Acting<R, J: Naming, K: Cluster> {
    pub(crate) number: u32,
    pub(crate) controller: Controller,
    pub(crate) caller: Caller<R, J>,
    pub(crate) diary: Diary<ControllerDid>,
    start: Moment,
    partitions: u32,
    cluster: PhantomData<K>,
}

impl<R, J: Naming, K: Cluster> Model for Acting<R, J, K> {
    ghost use Rattle.rt_live_controller.specs.Acting.{ControllerActs};

    ghost Value = { ControllerActs };

    ghost use Rattle.rt_live_controller.specs.Acting.{IsActingOf};
    ghost use Rattle.rt_live_names.specs.Fronts.{fronts};

    ghost view = { λ a. record {
      number = a.number;
      controller = a.controller;
      fronts = fronts a.caller.store a.caller.deep a.caller.stream;
      did = a.diary;
    } };

    ghost invariant = { λ a. IsActingOf K.names J.starting a.partitions (record {
      number = a.number;
      controller = a.controller;
      fronts = fronts a.caller.store a.caller.deep a.caller.stream;
      did = a.diary;
    }) };
}

impl<R: Copy, J: Naming, K: Cluster> Acting<R, J, K> {
    /// A controller that has done nothing yet.
    pub(crate) fn make(
        alloc: Global,
        setup: &Setup,
        number: u32,
        caller: Caller<R, J>,
    ) -> Result<Self, AllocError>
        requires setup { (setup.now ≡ K.names.setup) × IsSetup setup.now }
        requires starting { starting_of setup.now ≡ J.starting }
        requires caller { caller ≡ new_caller J.names (controller_caller K.names.setup number) }
        ensures { IfOk result (λ acting. (acting.number ≡ number) × (acting.did ≡ [])) }
    {
        Ok(Acting {
            number,
            controller: Controller::make(alloc, ControllerId(number), setup)?,
            caller,
            diary: Diary::new(alloc)?,
            start: setup.start,
            partitions: setup.partitions,
            cluster: PhantomData,
        })
    }

    /// It is told that it leads.
    pub(crate) fn lead(&mut self)
        requires { length self.old.did < 2 ^ 64 - 1 }
        ensures number { self.new.number ≡ self.old.number }
        ensures did { self.new.did ≡ self.old.did ++ Believed ∷ [] }
    {
        self.controller.believe(true);
        ControllerDid::Believed.note(&mut self.diary);
    }

    /// Whether it can do one thing more: what it did and the jobs that it started can still be counted.
    pub(crate) fn has_room(&self) -> bool
        ensures { IsTrue result → (length self.now.did < 2 ^ 64 - 1) × (self.now.controller.started < 2 ^ 63) }
    {
        self.diary.has_room() && self.controller.started() < 1 << 63
    }

    /// The number of its unfinished job, where it has one.
    pub(crate) fn open_job(&self) -> Option<u64> {
        let started = self.controller.started();
        if started != 0 && self.controller.is_open(started - 1) {
            Some(started - 1)
        } else {
            None
        }
    }
}

impl<R: Wait + Copy, J: Naming, K: Cluster> Acting<R, J, K> {
    /// Makes the next step of a job.
    pub(crate) fn work<C: Clock>(&mut self, alloc: Global, clock: &C, job: u64) -> ControllerDid
        requires { length self.old.did < 2 ^ 64 - 1 }
        ensures number { self.new.number ≡ self.old.number }
        ensures did { self.new.did ≡ self.old.did ++ result ∷ [] }
        ensures took { envelopes_in result ≡ [] }
    {
        let now = moment(self.start, clock);
        let result = self.controller.step_job(
            alloc,
            job,
            now,
            &mut self.caller.store,
            &mut self.caller.deep,
        );
        let told = self.caller.store.front().told();
        let deep_told = self.caller.deep.front().told();
        let did = ControllerDid::Worked {
            job,
            now,
            result,
            told,
            deep_told,
        };
        self.diary.note(&did);
        did
    }

    /// Handles an envelope that it took: a request of one of the cluster's partitions. Any other it passes by.
    pub(crate) fn take<C: Clock>(
        &mut self,
        alloc: Global,
        clock: &C,
        envelope: Envelope,
    ) -> ControllerDid
        requires room { (length self.old.did < 2 ^ 64 - 1) × (self.old.controller.started < 2 ^ 63) }
        ensures number { self.new.number ≡ self.old.number }
        ensures did { self.new.did ≡ self.old.did ++ result ∷ [] }
        ensures took { envelopes_in result ≡ envelope ∷ [] }
    {
        match envelope {
            Envelope::Asks(request) => self.ask(alloc, clock, request),
            Envelope::Replies(reply) => self.pass(Envelope::Replies(reply)),
        }
    }

    fn ask<C: Clock>(&mut self, alloc: Global, clock: &C, request: Request) -> ControllerDid
        requires room { (length self.old.did < 2 ^ 64 - 1) × (self.old.controller.started < 2 ^ 63) }
        ensures number { self.new.number ≡ self.old.number }
        ensures did { self.new.did ≡ self.old.did ++ result ∷ [] }
        ensures took { envelopes_in result ≡ Asks request ∷ [] }
    {
        if request.partition.0 < self.partitions {
            self.hear(alloc, clock, request)
        } else {
            self.pass(Envelope::Asks(request))
        }
    }

    // Answers a request, or starts a job that does.
    fn hear<C: Clock>(&mut self, alloc: Global, clock: &C, request: Request) -> ControllerDid
        requires room { (length self.old.did < 2 ^ 64 - 1) × (self.old.controller.started < 2 ^ 63) }
        requires within { request.partition.0 < K.names.setup.partitions }
        ensures number { self.new.number ≡ self.old.number }
        ensures did { self.new.did ≡ self.old.did ++ result ∷ [] }
        ensures took { envelopes_in result ≡ Asks request ∷ [] }
    {
        let now = moment(self.start, clock);
        let result = self.controller.on_request(
            alloc,
            &request,
            now,
            &mut self.caller.store,
            &mut self.caller.deep,
        );
        let told = self.caller.store.front().told();
        let deep_told = self.caller.deep.front().told();
        let did = ControllerDid::Heard {
            request,
            now,
            result,
            told,
            deep_told,
        };
        self.diary.note(&did);
        did
    }

    fn pass(&mut self, envelope: Envelope) -> ControllerDid
        requires room { length self.old.did < 2 ^ 64 - 1 }
        requires passed { IsPassed K.names.setup.partitions envelope }
        ensures number { self.new.number ≡ self.old.number }
        ensures did { self.new.did ≡ self.old.did ++ result ∷ [] }
        ensures took { envelopes_in result ≡ envelope ∷ [] }
    {
        let did = ControllerDid::Passed { envelope };
        self.diary.note(&did);
        did
    }
}
