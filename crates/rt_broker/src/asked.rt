use crate::answering::{missing_of, named_ranges, rows_of};
use crate::{BrokerRefused, PieceAnswer, PieceAsked, PieceGot, Plan, Route};
use rt_base::{Instance, Partition, Sequence};
use rt_lists::Items;
use rt_model::{Answer, Piece, Query, Setup};
use rt_store::{Store, StoreRefused};
use std::alloc::{AllocError, Global};
use std::marker::Model;

/// A query that is asked: it routes each partition, notes what each server gave for each piece, and answers.
#[derive(Drop)]
pub struct Asked {
    query: Query,
    servers: u32,
    replication: u32,
    routes: Items<Route>,
}

impl Model for Asked {
    ghost use Rattle.std.specs.Prelude.{◌≤◌, length};
    ghost use Rattle.rt_base.specs.declared.limits.TheConstants.{MOST_PARTITIONS};
    ghost use Rattle.std.specs.Coded.{codes};
    ghost use Rattle.rt_model.specs.contracts.query.Query.{the_row as query_row};
    ghost use Rattle.rt_broker.specs.Asking.{Asking};

    ghost Value = { Asking };

    ghost coded = { Prim.hlevel (codes, query_row.coded) };

    ghost view = { λ a. record {
      query = a.query;
      servers = a.servers;
      replication = a.replication;
      routes = a.routes;
    } };

    ghost invariant = { λ a. (1 ≤ a.replication) × (a.replication ≤ a.servers)
        × (length a.routes ≤ MOST_PARTITIONS) };
}

impl Asked {
    ghost use Rattle.std.specs.Prelude.{◌≡◌, ◌<◌, ℕ, List, Option, Some, None, length, IfOk, IfErr, IfSome, IfNone, OnOk, OnErr};
    ghost use Rattle.std.specs.List.{list_all};
    ghost use Rattle.rt_base.specs.declared.numbers.Partition.{Partition as APartition};
    ghost use Rattle.rt_base.specs.declared.numbers.Sequence.{Sequence as ASequence};
    ghost use Rattle.rt_lists.specs.Members.{Has, IsFront};
    ghost use Rattle.rt_schema.specs.declared.schema.Schema.{Schema};
    ghost use Rattle.rt_model.specs.declared.setup.Setup.{Setup as ASetup};
    ghost use Rattle.rt_model.specs.Aggregate.{result_rows};
    ghost use Rattle.rt_model.specs.RightAnswer.{named_ranges, missing_of, IsRightAnswer};
    ghost use Rattle.rt_model.specs.Laws.{Begins};
    ghost use Rattle.rt_model.specs.Setup.{IsSetup};
    ghost use Rattle.rt_store.specs.Contents.{starting_of};
    ghost use Rattle.rt_past.specs.Past.{Past};
    ghost use Rattle.rt_broker.specs.declared.refused.BrokerRefused.TheVariants.{StoreFault};
    ghost use Rattle.rt_broker.specs.declared.route.Route.TheVariants.{Planned};
    ghost use Rattle.rt_broker.specs.Answering.{
      AnswersDue,
      AreFew,
      AreHeld,
      AreServed,
      IsMissing,
      RowsOf,
      routed_of,
      rows_held,
      served_of,
    };
    ghost use Rattle.rt_broker.specs.Asking.{
      asking,
      asked_at,
      assigned_at,
      is_answer_due,
      is_due_of,
      is_one_of,
      is_piece_due,
      is_route_settled,
      is_settled,
      is_tried,
      piece_at,
      pieces_at,
      plan_at,
      was_asked,
      with_answer,
      with_route,
    };
    ghost use Rattle.rt_broker.specs.IsAsked.{IsAsked, IsRightGot};
    ghost use Rattle.rt_broker.specs.Noting.{FitsPiece, Notes};
    ghost use Rattle.rt_broker.specs.Routing.{Routes};

    /// A query of which nothing was asked yet, over a cluster within the limits. Fails only where memory is refused.
    pub fn make(alloc: Global, query: Query, setup: &Setup) -> Result<Asked, AllocError>
        requires { IsSetup setup.now }
        ensures value { IfOk result (λ asked. asked ≡ asking query setup.now) }
    {
        let mut routes = Items::new(alloc);
        for _partition in 0..setup.partitions {
            routes.push(Route::Untried)?;
        }
        Ok(Asked {
            query,
            servers: setup.servers,
            replication: setup.table.replication,
            routes,
        })
    }

    /// The query that is asked.
    pub fn query(&self) -> &Query
        ensures { result.now ≡ self.now.query }
    {
        &self.query
    }

    /// Whether a partition was routed, or its routing met a fault. Takes no memory.
    pub fn tried(&self, partition: Partition) -> bool
        ensures { result ≡ is_tried self.now partition }
    {
        match self.routes.get(partition.0 as usize) {
            Some(Route::Planned(_)) => true,
            Some(Route::Failed) => true,
            Some(Route::Untried) => false,
            None => false,
        }
    }

    /// The pieces of a partition's plan, by sequence; none where it isn't routed. Takes no memory.
    pub fn pieces(&self, partition: Partition) -> &[Piece]
        ensures { result.now ≡ pieces_at self.now partition }
    {
        match self.routes.get(partition.0 as usize) {
            Some(Route::Planned(plan)) => plan.pieces(),
            Some(Route::Failed) => &[],
            Some(Route::Untried) => &[],
            None => &[],
        }
    }

    /// What came of the piece of a segment, where its partition's plan has it.
    fn asked(&self, partition: Partition, sequence: Sequence) -> Option<&PieceAsked>
        ensures some { IfSome result (λ asked. asked_at self.now partition sequence ≡ Some asked.now) }
        ensures none { IfNone result (asked_at self.now partition sequence ≡ None) }
    {
        match self.routes.get(partition.0 as usize) {
            Some(Route::Planned(plan)) => plan.get(sequence),
            Some(Route::Failed) => None,
            Some(Route::Untried) => None,
            None => None,
        }
    }

    /// The piece of a segment, where its partition's plan has it. Takes no memory.
    pub fn piece(&self, partition: Partition, sequence: Sequence) -> Option<Piece>
        ensures { result ≡ piece_at self.now partition sequence }
    {
        match self.asked(partition, sequence) {
            Some(asked) => Some(asked.piece),
            None => None,
        }
    }

    /// Whether a server holds the segments of a partition.
    #[tactic(auto, using(crate::proofs::Replicas::one_later, crate::proofs::Replicas::one_here, crate::proofs::Replicas::one_nowhere))]
    fn is_assigned(&self, partition: Partition, from: Instance) -> bool
        ensures { result ≡ is_one_of (assigned_at self.now partition) from }
    {
        for k in 0..self.replication {
            if rt_assign::replica(partition, k, self.replication, self.servers) == from {
                return true;
            }
        }
        false
    }

    /// Whether a server is to be asked for the piece of a segment: the plan has it, it isn't served yet, and the server
    /// is assigned and wasn't asked for it. Takes no memory.
    pub fn piece_due(&self, partition: Partition, sequence: Sequence, from: Instance) -> bool
        ensures { result ≡ is_piece_due self.now partition sequence from }
    {
        match self.asked(partition, sequence) {
            Some(asked) => self.is_due_of(partition, asked, from),
            None => false,
        }
    }

    /// Whether a piece isn't served yet, and the server is assigned and wasn't asked for it.
    fn is_due_of(&self, partition: Partition, asked: &PieceAsked, from: Instance) -> bool
        ensures { result ≡ is_due_of (assigned_at self.now partition) (Some asked.now) from }
    {
        match asked.served() {
            Some(_served) => false,
            None => self.is_assigned(partition, from) && !asked.was_asked(from),
        }
    }

    /// Whether a piece is served, or every assigned server was asked for it.
    fn is_settled(&self, partition: Partition, asked: &PieceAsked) -> bool
        ensures { result ≡ is_settled (assigned_at self.now partition) asked.now }
    {
        match asked.served() {
            Some(_served) => true,
            None => self.are_all_asked(partition, asked),
        }
    }

    /// Whether every assigned server was asked for a piece.
    #[tactic(auto, using(crate::proofs::Replicas::asked_later, crate::proofs::Replicas::asked_not, crate::proofs::Replicas::asked_all))]
    fn are_all_asked(&self, partition: Partition, asked: &PieceAsked) -> bool
        ensures { result ≡ list_all (was_asked asked.now.answers) (assigned_at self.now partition) }
    {
        for k in 0..self.replication {
            let from = rt_assign::replica(partition, k, self.replication, self.servers);
            if !asked.was_asked(from) {
                return false;
            }
        }
        true
    }

    /// Whether nothing of a partition is still to be asked.
    fn is_route_settled(&self, partition: Partition, route: &Route) -> bool
        ensures { result ≡ is_route_settled (assigned_at self.now partition) route.now }
    {
        match route {
            Route::Untried => false,
            Route::Failed => true,
            Route::Planned(plan) => self.are_pieces_settled(partition, plan.asked()),
        }
    }

    /// Whether all of these pieces are settled.
    fn are_pieces_settled(&self, partition: Partition, pieces: &[PieceAsked]) -> bool
        ensures { result ≡ list_all (is_settled (assigned_at self.now partition)) pieces.now }
    {
        for piece in pieces {
            if !self.is_settled(partition, piece) {
                return false;
            }
        }
        true
    }

    /// Whether the query is to be answered: every partition was tried, and every piece is served or every assigned server
    /// was asked for it. Takes no memory.
    pub fn answer_due(&self) -> bool
        ensures { result ≡ is_answer_due self.now }
    {
        let routes = self.routes.as_slice();
        for (number, route) in routes.iter().enumerate() {
            if !self.is_route_settled(Partition(number as u32), route) {
                return false;
            }
        }
        true
    }

    /// Lists the metadata of a partition of the cluster, notes its plan, and answers the number of its pieces. `NotDue`
    /// where the partition was tried already. `StoreFault` where the store failed: the partition is then noted as tried
    /// and not routed, and is missing whole. After `Memory` all is as before; a plan of more pieces than 32 bits count is
    /// refused so too.
    #[tactic(auto, using(crate::proofs::Lasting::route_rose))]
    pub fn route<S: Store>(
        &mut self,
        alloc: Global,
        partition: Partition,
        store: &mut S,
    ) -> Result<u32, BrokerRefused>
        requires { partition.0 < length self.old.routes }
        ensures routes { Routes (S.meaning store.old) (S.meaning store.new) self.old partition self.new result }
        ensures fault { IfErr result (λ refused. refused ≡ StoreFault
            → (S.meaning store.old).faults < (S.meaning store.new).faults) }
        ensures asked { (setup : ASetup) (past : Past) → Begins (starting_of setup) (S.meaning store.old).seen
            → IsFront (S.meaning store.new).seen past.history → IsAsked setup past self.old → IsAsked setup past self.new }
    {
        self.take_route(alloc, partition, store)
    }

    #[tactic(auto, using(crate::proofs::Listed::never_no_node, crate::proofs::Listed::never_exists, crate::proofs::Listed::never_changed))]
    fn take_route<S: Store>(
        &mut self,
        alloc: Global,
        partition: Partition,
        store: &mut S,
    ) -> Result<u32, BrokerRefused>
        requires { partition.0 < length self.old.routes }
        ensures { Routes (S.meaning store.old) (S.meaning store.new) self.old partition self.new result }
    {
        if self.tried(partition) {
            return Err(BrokerRefused::NotDue);
        }
        match store.list(alloc, partition) {
            Ok(nodes) => {
                let plan = Plan::make(alloc, partition, nodes.as_slice())?;
                let count = plan.pieces().len();
                if count > u32::MAX as usize {
                    return Err(BrokerRefused::Memory);
                }
                *self.routes.at_mut(partition.0 as usize) = Route::Planned(plan);
                Ok(count as u32)
            }
            Err(StoreRefused::Failed) => {
                *self.routes.at_mut(partition.0 as usize) = Route::Failed;
                Err(BrokerRefused::StoreFault)
            }
            Err(StoreRefused::NoNode) => unreachable!(),
            Err(StoreRefused::Exists { .. }) => unreachable!(),
            Err(StoreRefused::VersionChanged { .. }) => unreachable!(),
            Err(StoreRefused::Memory) => Err(BrokerRefused::Memory),
        }
    }

    /// Notes what a server gave for a piece. What was served has the piece's range, or where the piece has no end one
    /// from its start. `NotDue` where the plan hasn't the piece, where it is served, and where the server isn't assigned
    /// or was asked for it already. After `Memory` all is as before.
    #[tactic(auto, using(crate::proofs::Lasting::note_kept))]
    pub fn note_piece(
        &mut self,
        piece: Piece,
        from: Instance,
        got: PieceGot,
    ) -> Result<(), BrokerRefused>
        requires { FitsPiece piece got }
        ensures notes { Notes self.old piece from got self.new result }
        ensures asked { (setup : ASetup) (past : Past) → IsRightGot setup past self.old.query piece got
            → IsAsked setup past self.old → IsAsked setup past self.new }
    {
        self.take_note(piece, from, got)
    }

    fn take_note(
        &mut self,
        piece: Piece,
        from: Instance,
        got: PieceGot,
    ) -> Result<(), BrokerRefused>
        ensures { Notes self.old piece from got self.new result }
    {
        if self.piece(piece.partition, piece.sequence) != Some(piece) {
            return Err(BrokerRefused::NotDue);
        }
        if !self.piece_due(piece.partition, piece.sequence, from) {
            return Err(BrokerRefused::NotDue);
        }
        self.add_answer(piece, PieceAnswer { from, got })?;
        Ok(())
    }

    /// Adds an answer to a piece of a plan. Where memory runs out, all is as before.
    #[tactic(auto, using(crate::proofs::Noting::piece_within, crate::proofs::Noting::noted_route, rt_lists::proofs::Lists::set_same))]
    fn add_answer(&mut self, piece: Piece, answer: PieceAnswer) -> Result<(), AllocError>
        requires { piece_at self.old piece.partition piece.sequence ≡ Some piece }
        ensures ok { OnOk result (self.new ≡ with_route self.old piece.partition
            (Planned (with_answer piece.sequence answer (plan_at self.old piece.partition)))) }
        ensures err { OnErr result (self.new ≡ self.old) }
    {
        let route = self.routes.at_mut(piece.partition.0 as usize);
        route.note(piece.sequence, answer)
    }

    /// The answer, which changes nothing: the ranges that were served, merged; each piece that wasn't served, and each
    /// partition that couldn't be routed; and the result rows of all that was served. `NotDue` where something is still
    /// to be asked.
    #[tactic(auto, using(crate::proofs::Right::answer_right, crate::proofs::Causes::answer_caused))]
    pub fn answer(&self, alloc: Global) -> Result<Answer, BrokerRefused>
        ensures due { AnswersDue self.now result }
        ensures ranges { IfOk result (λ answer. answer.ranges ≡ named_ranges (routed_of self.now)) }
        ensures missing { IfOk result (λ answer. answer.missing ≡ missing_of (routed_of self.now)) }
        ensures rows { IfOk result (λ answer. (rows : RowsOf) → AreHeld self.now.query rows (served_of self.now)
            → AreFew (rows_held rows (served_of self.now))
            → answer.rows ≡ result_rows self.now.query (rows_held rows (served_of self.now))) }
        ensures right { IfOk result (λ answer. (schema : Schema) (log : List (List (List ℕ))) → AreServed schema log self.now
            → IsRightAnswer schema log self.now.query (routed_of self.now) answer) }
        ensures causes { IfOk result (λ answer. (p : APartition) (s : Option ASequence) → Has answer.missing (p, s)
            → IsMissing self.now p s) }
    {
        self.take_answer(alloc)
    }

    fn take_answer(&self, alloc: Global) -> Result<Answer, BrokerRefused>
        ensures due { AnswersDue self.now result }
        ensures ranges { IfOk result (λ answer. answer.ranges ≡ named_ranges (routed_of self.now)) }
        ensures missing { IfOk result (λ answer. answer.missing ≡ missing_of (routed_of self.now)) }
        ensures rows { IfOk result (λ answer. (rows : RowsOf) → AreHeld self.now.query rows (served_of self.now)
            → AreFew (rows_held rows (served_of self.now))
            → answer.rows ≡ result_rows self.now.query (rows_held rows (served_of self.now))) }
    {
        if !self.answer_due() {
            return Err(BrokerRefused::NotDue);
        }
        let routes = self.routes.as_slice();
        let ranges = named_ranges(alloc, routes)?;
        let missing = missing_of(alloc, routes)?;
        let rows = rows_of(alloc, &self.query, routes)?;
        Ok(Answer {
            ranges,
            missing,
            rows,
        })
    }
}
