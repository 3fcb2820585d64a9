use rt_base::{Moment, Offset, Partition, Sequence};
use rt_broker::PieceGiven;
use rt_diary::Diary;
use rt_entry::ServerRefused;
use rt_link::Envelope;
use rt_model::{ReplicaState, Reply, Request};
use rt_stream::FeedRefused;

/// What a server did, and what came of it. `told` counts the entries that the caller's front of the store, the deep
/// store or the stream showed afterwards.
#[derive(Drop)]
pub enum ServerDid {
    /// It took a reply from its inbox, and handed it to its replica.
    Took {
        reply: Reply,
    },
    /// It took an envelope that is for none of its replicas.
    Passed {
        envelope: Envelope,
    },
    /// It read the ideal state.
    Saw {
        told: u64,
        result: Result<u64, ServerRefused>,
    },
    /// It moved a segment to what the ideal state asks.
    Moved {
        partition: Partition,
        sequence: Sequence,
        now: Moment,
        told: u64,
        result: Result<ReplicaState, ServerRefused>,
    },
    /// It loaded the file of a committed segment; the result counts the rows.
    Loaded {
        partition: Partition,
        sequence: Sequence,
        told: u64,
        result: Result<u32, ServerRefused>,
    },
    /// It looked how many messages the stream has of a partition.
    Measured {
        partition: Partition,
        told: u64,
        result: Result<Offset, FeedRefused>,
    },
    /// A replica took messages of the stream, at most so many.
    Consumed {
        partition: Partition,
        sequence: Sequence,
        max: u32,
        now: Moment,
        told: u64,
        result: Result<(), ServerRefused>,
    },
    /// A replica was made to end its segment.
    Forced {
        partition: Partition,
        sequence: Sequence,
        result: Result<(), ServerRefused>,
    },
    /// A replica sealed its rows.
    Built {
        partition: Partition,
        sequence: Sequence,
        result: Result<(), ServerRefused>,
    },
    /// A replica made its next request.
    Asked {
        partition: Partition,
        sequence: Sequence,
        result: Result<Request, ServerRefused>,
    },
    /// It was asked for a piece of a query by the broker.
    Gave(PieceGiven),
    /// It lost all that it held in memory.
    Crashed,
    /// It came up again, in the next incarnation.
    Restarted {
        told: u64,
        result: Result<u64, ServerRefused>,
    },
}

impl ServerDid {
    ghost use Rattle.std.specs.Prelude.{◌≡◌, ◌<◌, ◌-◌, ◌^◌, [], ◌∷◌, ◌++◌, length, Some, Result};
    ghost use Rattle.rt_base.specs.declared.numbers.Partition.{Partition as P};
    ghost use Rattle.rt_base.specs.declared.numbers.Sequence.{Sequence as Q};
    ghost use Rattle.rt_broker.specs.declared.piece_given.PieceGiven.{PieceGiven as Given};
    ghost use Rattle.rt_entry.specs.declared.refused.ServerRefused.{ServerRefused as Refused};
    ghost use Rattle.rt_model.specs.declared.request.Request.{Request as Question};
    ghost use Rattle.rt_live_server.specs.declared.did.ServerDid.TheVariants.{Asked, Gave};

    /// Notes it in a diary.
    pub(crate) fn note(self, diary: &mut Diary<ServerDid>)
        requires { length diary.old < 2 ^ 64 - 1 }
        ensures { diary.new ≡ diary.old ++ self ∷ [] }
    {
        diary.note(&self);
    }

    /// The answer of a replica that was to make a request.
    pub(crate) fn into_asked(self) -> Option<Result<Request, ServerRefused>>
        ensures { (p : P) (q : Q) (answer : Result Question Refused) → self ≡ Asked p q answer → result ≡ Some answer }
    {
        match self {
            ServerDid::Asked { result, .. } => Some(result),
            _other => None,
        }
    }

    /// What was given of a piece.
    pub(crate) fn into_given(self) -> Option<PieceGiven>
        ensures { (given : Given) → self ≡ Gave given → result ≡ Some given }
    {
        match self {
            ServerDid::Gave(given) => Some(given),
            _other => None,
        }
    }
}
