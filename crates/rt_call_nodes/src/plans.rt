use crate::listed_words::{listed_in, write_segment};
use crate::pieces::write_end;
use rt_base::Partition;
use rt_broker::Plan;
use rt_call_words::{Answer, Stop, Words};
use rt_model::Piece;
use std::alloc::Global;

/// `plan P`, and metadata as a further part: the pieces of the partition's plan, `P/Q:START:END` with `-` in place of no
/// end.
pub fn plan(alloc: Global, words: &mut Words, answer: &mut Answer) -> Result<(), Stop> {
    let partition = Partition(words.count_until('\t'));
    let nodes = words.rest();
    words.ended()?;
    let nodes = listed_in(alloc, nodes)?;
    let plan = Plan::make(alloc, partition, nodes.as_slice())?;
    write_pieces(plan.pieces(), answer);
    Ok(())
}

fn write_pieces(pieces: &[Piece], answer: &mut Answer) {
    if pieces.is_empty() {
        answer.add("-");
    }
    for (place, piece) in pieces.iter().enumerate() {
        answer.part(place, " ");
        write_piece(*piece, answer);
    }
}

fn write_piece(piece: Piece, answer: &mut Answer) {
    write_segment(piece.partition, piece.sequence, answer);
    answer.add(":");
    answer.number(piece.start.0);
    answer.add(":");
    write_end(piece.end, answer);
}
