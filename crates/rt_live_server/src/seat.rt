ghost use Rattle.std.specs.Prelude.{◌≡◌, ◌<◌, ◌≤◌, ◌%◌, [], IfOk};
ghost use Rattle.rt_front.specs.Histories.{history};
ghost use Rattle.rt_ground.specs.Callers.{new_caller};
ghost use Rattle.rt_link.specs.Ends.{taking};
ghost use Rattle.rt_live_names.specs.Fronts.{controller_line, fronts, server_caller, server_line};
ghost use Rattle.rt_live_names.specs.Sending.{ArePosts};
ghost use Rattle.rt_live_server.specs.Seat.{HasEnded, acting_now, seat_now};
ghost use Rattle.rt_model.specs.Setup.{IsSetup};
ghost use Rattle.rt_store.specs.Contents.{starting_of};

use crate::acting::Acting;
use crate::agenda::Agenda;
use crate::ended::ServerEnded;
use crate::patience::Patience;
use crate::pieces::PieceKeeper;
use rt_base::Moment;
use rt_ground::{Caller, Naming};
use rt_link::Inbox;
use rt_live_names::{Cluster, Posts};
use rt_model::Setup;
use std::alloc::{AllocError, Global};
use std::marker::Model;

/// A server of a running cluster in its seat: the server and its diary, its inbox, its posts, and the history of what
/// it gave the broker.
#[derive(Drop)]
pub struct ServerSeat<R, J: Naming, K: Cluster> {
    pub(crate) acting: Acting<R, J, K>,
    pub(crate) inbox: Inbox,
    pub(crate) posts: Posts,
    pub(crate) pieces: PieceKeeper,
    pub(crate) agenda: Agenda,
    pub(crate) patience: Patience,
    /// The moment at which the cluster began.
    pub(crate) start: Moment,
    /// The controller that it asks, by its number.
    pub(crate) controller: u32,
    /// The turn in which it crashes, where it does.
    pub(crate) crash: Option<u64>,
}

impl<R, J: Naming, K: Cluster> Model for ServerSeat<R, J, K> {
    ghost use Rattle.rt_live_server.specs.Seat.{Seated};

    ghost Value = { Seated };

    ghost use Rattle.rt_live_server.specs.Seat.{IsSeat, seat_now};

    ghost view = { λ s. record { acting = s.acting; inbox = s.inbox; posts = s.posts; pieces = s.pieces; controller = s.controller; crash = s.crash } };

    ghost invariant = { λ s. IsSeat K.names (seat_now s.acting s.inbox s.posts.posts s.pieces) };
}

impl<R: Copy, J: Naming, K: Cluster> ServerSeat<R, J, K> {
    /// The seat of the server of this number, in a cluster of which so many controllers believe that they lead. It
    /// crashes in its turn of the number that is given, if one is; turns count from 0. Fails only where memory is
    /// refused.
    pub fn make(
        alloc: Global,
        setup: &Setup,
        number: u32,
        caller: Caller<R, J>,
        inbox: Inbox,
        posts: Posts,
        pieces: PieceKeeper,
        leaders: u32,
        crash: Option<u64>,
    ) -> Result<Self, AllocError>
        requires setup { IsSetup setup.now }
        requires same { setup.now ≡ K.names.setup }
        requires starting { starting_of setup.now ≡ J.starting }
        requires number { number < setup.now.servers }
        requires caller { caller ≡ new_caller J.names (server_caller number) }
        requires inbox { inbox ≡ taking (K.names.lines (server_line number)) 1024 setup.now.controllers [] [] }
        requires posts { ArePosts K.names number (controller_line setup.now) [] posts.posts }
        requires pieces { pieces ≡ history (K.names.asked number) [] 1 }
        requires leaders { 1 ≤ leaders }
        ensures number { IfOk result (λ seat. seat.acting.number ≡ number) }
        ensures posts { IfOk result (λ seat. seat.posts ≡ posts) }
        ensures controller { IfOk result (λ seat. seat.controller ≡ number % leaders) }
        ensures crash { IfOk result (λ seat. seat.crash ≡ crash) }
    {
        let acting = Acting::make(alloc, setup, number, caller)?;
        Ok(ServerSeat {
            acting,
            inbox,
            posts,
            pieces,
            agenda: Agenda::new(alloc),
            patience: Patience::new(alloc),
            start: setup.start,
            controller: number % leaders,
            crash,
        })
    }

    /// What the seat has when its server has ended.
    pub fn into_ended(self) -> ServerEnded<R, J>
        ensures number { result.number ≡ self.acting.number }
        ensures ended { HasEnded K.names J.starting (seat_now
            (acting_now result.number result.server result.up
            (fronts result.caller.store result.caller.deep result.caller.stream) result.diary)
            result.inbox result.posts.items result.pieces) }
    {
        let ServerSeat {
            acting,
            inbox,
            posts,
            pieces,
            ..
        } = self;
        let Acting {
            number,
            server,
            up,
            caller,
            diary,
            ..
        } = acting;
        ServerEnded {
            number,
            server,
            up,
            caller,
            diary,
            inbox,
            posts: posts.into_posts(),
            pieces,
        }
    }
}
