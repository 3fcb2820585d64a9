ghost use Rattle.std.specs.Prelude.{◌≡◌, ◌<◌, ◌-◌, ◌^◌, true, [], IfOk, IsTrue, length};
ghost use Rattle.rt_ground.specs.Callers.{new_caller};
ghost use Rattle.rt_live_names.specs.Fronts.{server_caller};
ghost use Rattle.rt_model.specs.Setup.{IsSetup};
ghost use Rattle.rt_store.specs.Contents.{starting_of};

use crate::did::ServerDid;
use rt_base::Instance;
use rt_diary::Diary;
use rt_ground::{Caller, Naming};
use rt_live_names::Cluster;
use rt_model::Setup;
use rt_server::Server;
use std::alloc::{AllocError, Global};
use std::marker::{Model, PhantomData};

/// A server of a running cluster with its caller of the ground, and the diary of what it did.
#[derive(Drop)]
pub struct Acting<R, J: Naming, K: Cluster> {
    pub(crate) number: u32,
    pub(crate) partitions: u32,
    pub(crate) server: Server,
    /// Whether it hasn't crashed, or came up again.
    pub(crate) up: bool,
    pub(crate) caller: Caller<R, J>,
    pub(crate) diary: Diary<ServerDid>,
    pub(crate) of: PhantomData<K>,
}

impl<R, J: Naming, K: Cluster> Model for Acting<R, J, K> {
    ghost use Rattle.rt_live_server.specs.Acting.{ActingNow};

    ghost Value = { ActingNow };

    ghost use Rattle.std.specs.Prelude.{◌≡◌};
    ghost use Rattle.rt_live_names.specs.Fronts.{fronts};
    ghost use Rattle.rt_live_server.specs.Acting.{IsActing};

    ghost view = { λ a. record {
      number = a.number;
      server = a.server;
      up = a.up;
      fronts = fronts a.caller.store a.caller.deep a.caller.stream;
      did = a.diary;
    } };

    ghost invariant = { λ a. (a.partitions ≡ K.names.setup.partitions)
        × IsActing K.names J.starting (record {
          number = a.number;
          server = a.server;
          up = a.up;
          fronts = fronts a.caller.store a.caller.deep a.caller.stream;
          did = a.diary;
        }) };
}

impl<R: Copy, J: Naming, K: Cluster> Acting<R, J, K> {
    /// A server that is up and did nothing yet. Fails only where memory is refused.
    pub(crate) fn make(
        alloc: Global,
        setup: &Setup,
        number: u32,
        caller: Caller<R, J>,
    ) -> Result<Self, AllocError>
        requires setup { IsSetup setup.now }
        requires same { setup.now ≡ K.names.setup }
        requires starting { starting_of setup.now ≡ J.starting }
        requires number { number < setup.now.servers }
        requires caller { caller ≡ new_caller J.names (server_caller number) }
        ensures { IfOk result (λ acting. (acting.number ≡ number) × (acting.did ≡ [])) }
    {
        let server = Server::make(alloc, setup, Instance(number))?;
        let diary = Diary::new(alloc)?;
        Ok(Acting {
            number,
            partitions: setup.partitions,
            server,
            up: true,
            caller,
            diary,
            of: PhantomData,
        })
    }
}

impl<R, J: Naming, K: Cluster> Acting<R, J, K> {
    /// Its number among the servers.
    pub(crate) fn number(&self) -> u32
        ensures { result ≡ self.now.number }
    {
        self.number
    }

    /// Whether it hasn't crashed, or came up again.
    pub(crate) fn is_up(&self) -> bool
        ensures { result ≡ self.now.up }
    {
        self.up
    }

    /// Whether its diary has room for one more thing that it does.
    pub(crate) fn has_room(&self) -> bool
        ensures { IsTrue result → length self.now.did < 2 ^ 64 - 1 }
    {
        self.diary.has_room()
    }

    /// Whether it is up, and its diary has room for one more thing that it does.
    pub(crate) fn can_act(&self) -> bool
        ensures { IsTrue result → (length self.now.did < 2 ^ 64 - 1) × (self.now.up ≡ true) }
    {
        self.up && self.has_room()
    }

    /// Whether its incarnation has a number for one more request.
    pub(crate) fn has_number(&self) -> bool
        ensures { IsTrue result → self.now.server.numbers.made < 2 ^ 63 }
    {
        self.server.made() < 1 << 63
    }

    /// The server.
    pub(crate) fn server(&self) -> &Server
        ensures { result.now ≡ self.now.server }
    {
        &self.server
    }
}
