use crate::did::BrokerDid;
use rt_base::{Instance, Partition};
use rt_broker::{Asked, BrokerRefused};
use rt_link::never;
use rt_model::{Answer, Piece, Setup};
use rt_store::Store;
use std::alloc::{AllocError, Global};
use std::marker::Model;
use std::sync::Wait;

/// A query that is being asked, and how far its servers were asked.
#[derive(Drop)]
pub(crate) struct Begun {
    /// The query, by its place in the input.
    pub(crate) query: u32,
    /// Which asking this is, by the broker's count.
    pub(crate) asking: u64,
    pub(crate) asked: Asked,
    /// How many partitions were routed.
    pub(crate) routed: u32,
    /// The partition, and the place in its plan, before which nothing is left to be asked.
    pub(crate) partition: u32,
    pub(crate) place: usize,
}

impl Model for Begun {
    ghost use Rattle.rt_live_broker.specs.Asks.{Opened};
    ghost use Rattle.rt_model.specs.contracts.query.Query.{the_row as query_row};
    ghost use Rattle.std.specs.Coded.{codes};

    ghost Value = { Opened };

    ghost coded = { Prim.hlevel (codes, query_row.coded) };

    ghost view = { λ b. record { query = b.query; asking = b.asking; asked = b.asked } };
}

impl Begun {
    ghost use Rattle.std.specs.Prelude.{◌≡◌, ◌<◌, IfErr, IfOk, length};
    ghost use Rattle.rt_base.specs.declared.numbers.Instance.{Instance as AnInstance};
    ghost use Rattle.rt_broker.specs.Noting.{FitsPiece, Notes};
    ghost use Rattle.rt_broker.specs.Routing.{Routes};
    ghost use Rattle.rt_broker.specs.declared.piece_got.PieceGot.{PieceGot};
    ghost use Rattle.rt_broker.specs.declared.refused.BrokerRefused.TheVariants.{StoreFault};
    ghost use Rattle.rt_live_broker.specs.Asks.{opened};
    ghost use Rattle.rt_live_broker.specs.declared.did.BrokerDid.TheVariants.{Noted};
    ghost use Rattle.rt_live_names.specs.BrokerPart.{IsAnswerOf};
    ghost use Rattle.rt_model.specs.Setup.{IsSetup};
    ghost use Rattle.rt_model.specs.declared.piece.Piece.{Piece as APiece};

    /// A query of which nothing was asked yet.
    pub(crate) fn of(query: u32, asking: u64, asked: Asked) -> Begun
        ensures { result ≡ opened query asking asked }
    {
        Begun {
            query,
            asking,
            asked,
            routed: 0,
            partition: 0,
            place: 0,
        }
    }

    /// The partition that is routed next, while one is left.
    pub(crate) fn untried(&self, setup: &Setup) -> Option<Partition> {
        if self.routed >= setup.partitions {
            return None;
        }
        Some(Partition(self.routed))
    }

    /// Routes a partition.
    pub(crate) fn route<S: Store>(
        &mut self,
        alloc: Global,
        partition: Partition,
        store: &mut S,
    ) -> Result<u32, BrokerRefused>
        requires { partition.0 < length self.old.asked.routes }
        ensures fault { IfErr result (λ refused. refused ≡ StoreFault
            → (S.meaning store.old).faults < (S.meaning store.new).faults) }
        ensures routes { Routes (S.meaning store.old) (S.meaning store.new) self.old.asked partition self.new.asked
            result }
        ensures same { (self.new.query ≡ self.old.query) × (self.new.asking ≡ self.old.asking) }
    {
        let result = self.asked.route(alloc, partition, store);
        if result != Err(BrokerRefused::Memory) {
            self.routed = self.routed.saturating_add(1);
        }
        result
    }

    /// Notes what was given for a piece, as it was written down.
    pub(crate) fn note(&mut self, did: BrokerDid) -> Result<(), BrokerRefused>
        requires { (piece : APiece) (from : AnInstance) (got : PieceGot) → did ≡ Noted piece from got
            → FitsPiece piece got }
        ensures notes { (piece : APiece) (from : AnInstance) (got : PieceGot) → did ≡ Noted piece from got
            → Notes self.old.asked piece from got self.new.asked result }
        ensures same { (self.new.query ≡ self.old.query) × (self.new.asking ≡ self.old.asking) }
    {
        match did {
            BrokerDid::Noted { piece, from, got } => self.asked.note_piece(piece, from, got),
            _other => Err(BrokerRefused::NotDue),
        }
    }

    /// The answer, which is due.
    pub(crate) fn answer<R: Wait>(&self, rt: &R, alloc: Global) -> Result<Answer, AllocError>
        ensures { IfOk result (IsAnswerOf self.now.asked) }
    {
        match self.asked.answer(alloc) {
            Ok(answer) => Ok(answer),
            Err(BrokerRefused::Memory) => Err(AllocError),
            Err(BrokerRefused::NotDue) => never(rt),
            Err(BrokerRefused::StoreFault) => never(rt),
        }
    }

    /// The piece that is asked for next, and the server that is asked for it. Where none is left the query can be
    /// answered.
    pub(crate) fn next(&mut self, setup: &Setup) -> Option<(Piece, Instance)>
        requires { IsSetup setup.now }
        ensures { self.new ≡ self.old }
    {
        for partition in self.partition..setup.partitions {
            if let Some(next) = self.next_of(Partition(partition), setup) {
                return Some(next);
            }
            self.partition = partition + 1;
            self.place = 0;
        }
        None
    }

    // The next of a partition.
    fn next_of(&mut self, partition: Partition, setup: &Setup) -> Option<(Piece, Instance)>
        requires { IsSetup setup.now }
        ensures { self.new ≡ self.old }
    {
        let count = self.asked.pieces(partition).len();
        for place in self.place..count {
            self.place = place;
            if let Some(next) = self.due_at(partition, place, setup) {
                return Some(next);
            }
        }
        None
    }

    // The piece at a place of a plan with the first server that is to be asked for it.
    fn due_at(&self, partition: Partition, place: usize, setup: &Setup) -> Option<(Piece, Instance)>
        requires { IsSetup setup.now }
    {
        let piece = *self.asked.pieces(partition).get(place)?;
        for k in 0..setup.table.replication {
            let from = rt_assign::replica(partition, k, setup.table.replication, setup.servers);
            if self.asked.piece_due(partition, piece.sequence, from) {
                return Some((piece, from));
            }
        }
        None
    }
}
