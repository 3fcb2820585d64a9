ghost use Rattle.std.specs.Prelude.{◌≡◌, map, IfOk};
ghost use Rattle.rt_model.specs.Plan.{piece_of, plan_of};
ghost use Rattle.rt_broker.specs.Asking.{unasked};

use crate::{PieceAnswer, PieceAsked};
use rt_base::{Offset, Partition, Sequence};
use rt_lists::Items;
use rt_model::{Listed, Piece, Status};
use std::alloc::{AllocError, Global};
use std::marker::Model;

/// The plan of a partition: its pieces, and what came of each. Beside what was asked it keeps the pieces alone, as a
/// list to be lent.
#[derive(Drop)]
pub struct Plan {
    pieces: Items<Piece>,
    asked: Items<PieceAsked>,
}

impl Model for Plan {
    ghost use Rattle.std.specs.Prelude.{◌≡◌, List, map};
    ghost use Rattle.rt_broker.specs.declared.piece_asked.PieceAsked.{PieceAsked};

    ghost Value = { List PieceAsked };

    ghost view = { λ a. a.asked };

    ghost invariant = { λ a. a.pieces ≡ map (λ asked. asked.piece) a.asked };
}

impl Plan {
    ghost use Rattle.std.specs.Prelude.{◌≡◌, map, IfOk, IfSome, IfNone, OnOk, OnErr, Some, None};
    ghost use Rattle.rt_model.specs.Plan.{plan_of};
    ghost use Rattle.rt_broker.specs.Asking.{unasked, place_from, asked_for, with_answer};

    /// The plan over a partition's metadata list, of which nothing was asked yet. Fails only where memory is refused.
    #[tactic(auto, using(crate::proofs::Plans::pieces_of_unasked))]
    pub fn make(alloc: Global, partition: Partition, nodes: &[Listed]) -> Result<Plan, AllocError>
        ensures { IfOk result (λ plan. plan ≡ map unasked (plan_of partition nodes.now)) }
    {
        let pieces = planned(alloc, partition, nodes)?;
        let asked = none_asked(alloc, pieces.as_slice())?;
        Ok(Plan { pieces, asked })
    }

    /// The pieces, by sequence.
    pub fn pieces(&self) -> &[Piece]
        ensures { result.now ≡ map (λ asked. asked.piece) self.now }
    {
        self.pieces.as_slice()
    }

    /// The pieces, and what came of each.
    pub fn asked(&self) -> &[PieceAsked]
        ensures { result.now ≡ self.now }
    {
        self.asked.as_slice()
    }

    /// The place of the piece of a segment, where the plan has it.
    fn place(&self, sequence: Sequence) -> Option<usize>
        ensures { result ≡ place_from 0 sequence self.now }
    {
        let asked = self.asked.as_slice();
        for (place, one) in asked.iter().enumerate() {
            if one.piece.sequence == sequence {
                return Some(place);
            }
        }
        None
    }

    /// The piece of a segment and what came of it, where the plan has it.
    #[tactic(auto, using(crate::proofs::Plans::asked_at, crate::proofs::Plans::asked_nowhere))]
    pub fn get(&self, sequence: Sequence) -> Option<&PieceAsked>
        ensures some { IfSome result (λ asked. asked_for sequence self.now ≡ Some asked.now) }
        ensures none { IfNone result (asked_for sequence self.now ≡ None) }
    {
        match self.place(sequence) {
            Some(place) => self.asked.get(place),
            None => None,
        }
    }

    /// Notes what a server gave for the piece of a segment, where the plan has it. Where memory runs out, all is as
    /// before.
    #[tactic(auto, using(crate::proofs::Plans::answer_at, crate::proofs::Plans::answer_missing, crate::proofs::Plans::pieces_stay, crate::proofs::Plans::place_within, rt_lists::proofs::Lists::set_same))]
    pub fn note(&mut self, sequence: Sequence, answer: PieceAnswer) -> Result<(), AllocError>
        ensures ok { OnOk result (self.new ≡ with_answer sequence answer self.old) }
        ensures err { OnErr result (self.new ≡ self.old) }
    {
        match self.place(sequence) {
            Some(place) => self.asked.at_mut(place).answers.push(answer),
            None => Ok(()),
        }
    }
}

/// The pieces over a partition's metadata list: one for each committed segment up to the first one in progress, which is
/// the last.
fn planned(
    alloc: Global,
    partition: Partition,
    nodes: &[Listed],
) -> Result<Items<Piece>, AllocError>
    ensures { IfOk result (λ pieces. pieces ≡ plan_of partition nodes.now) }
{
    let mut pieces = Items::new(alloc);
    for node in nodes {
        match &node.seen.meta.status {
            Status::Done(commit) => pieces.push(piece_of(partition, node, Some(commit.end)))?,
            Status::InProgress => {
                pieces.push(piece_of(partition, node, None))?;
                return Ok(pieces);
            }
            Status::Abandoned => (),
        }
    }
    Ok(pieces)
}

fn piece_of(partition: Partition, node: &Listed, end: Option<Offset>) -> Piece
    ensures { result ≡ piece_of partition node.now end }
{
    Piece {
        partition,
        sequence: node.sequence,
        start: node.seen.meta.start,
        end,
    }
}

/// Pieces for which no server was asked yet.
fn none_asked(alloc: Global, pieces: &[Piece]) -> Result<Items<PieceAsked>, AllocError>
    ensures { IfOk result (λ asked. asked ≡ map unasked pieces.now) }
{
    let mut asked = Items::new(alloc);
    for piece in pieces {
        asked.push(PieceAsked {
            piece: *piece,
            answers: Items::new(alloc),
        })?;
    }
    Ok(asked)
}
