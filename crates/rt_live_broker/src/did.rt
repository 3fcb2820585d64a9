use crate::kept::AnswerKept;
use rt_base::{Instance, Partition, Sequence};
use rt_broker::{BrokerRefused, PieceGot};
use rt_diary::Diary;
use rt_model::{Piece, Seen};
use rt_store::StoreRefused;

/// What a broker did. How many entries its store front had seen then is told where it asked the store.
#[derive(Drop)]
pub enum BrokerDid {
    /// It looked whether a segment is committed.
    Looked {
        partition: Partition,
        sequence: Sequence,
        told: u64,
        result: Result<Seen, StoreRefused>,
    },
    /// It began to ask a query, by its place in the input, for the time of this number.
    Asked {
        query: u32,
        asking: u64,
        told: u64,
    },
    /// It routed a partition.
    Routed {
        partition: Partition,
        told: u64,
        result: Result<u32, BrokerRefused>,
    },
    /// It noted what a server had given for a piece.
    Noted {
        piece: Piece,
        from: Instance,
        got: PieceGot,
    },
    /// It answered.
    Answered {
        kept: AnswerKept,
    },
}

impl BrokerDid {
    ghost use Rattle.std.specs.Prelude.{◌≡◌, ◌<◌, ◌-◌, ◌^◌, [], ◌∷◌, ◌++◌, length};

    /// Notes it.
    pub(crate) fn note(self, diary: &mut Diary<BrokerDid>)
        requires { length diary.old < 2 ^ 64 - 1 }
        ensures { diary.new ≡ diary.old ++ self ∷ [] }
    {
        diary.note(&self);
    }
}
