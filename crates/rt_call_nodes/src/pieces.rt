//! Words of the pieces of a query's plan.
ghost use Rattle.std.specs.Prelude.{◌≤◌, IfOk, IfSome};

use rt_base::Offset;
use rt_call_words::{Answer, Segment, Stop, Words};
use rt_entry::{ServeRefused, ServedRows};
use rt_model::Piece;

/// `START END`, with `-` in place of no end: a piece of a segment.
pub fn piece_in(segment: Segment, words: &mut Words) -> Result<Piece, Stop>
    ensures { IfOk result (λ piece. IfSome piece.end (λ end. piece.start.0 ≤ end.0)) }
{
    let start = Offset(words.number());
    let end = end_in(words.word())?;
    words.ended()?;
    match end {
        Some(end) if end.0 < start.0 => Err(Stop::Refused),
        end => Ok(Piece {
            partition: segment.partition,
            sequence: segment.sequence,
            start,
            end,
        }),
    }
}

fn end_in(word: &str) -> Result<Option<Offset>, Stop> {
    if word == "-" {
        return Ok(None);
    }
    let mut words = Words::of(word);
    let end = Offset(words.number());
    words.ended()?;
    Ok(Some(end))
}

/// Adds the range over which a piece is served and the number of its rows; or `notserved` and the end that is held.
pub fn write_served(
    served: Result<ServedRows, ServeRefused>,
    answer: &mut Answer,
) -> Result<(), Stop> {
    match served {
        Ok(served) => {
            answer.number(served.range.start.0);
            answer.add(" ");
            answer.number(served.range.end.0);
            answer.add(" ");
            answer.number(served.rows.len() as u64);
        }
        Err(ServeRefused::NotServed { reached }) => {
            answer.add("notserved ");
            write_end(reached, answer);
        }
        Err(ServeRefused::Memory) => return Err(Stop::Memory),
    }
    Ok(())
}

/// Adds an end, with `-` in place of none.
pub(crate) fn write_end(end: Option<Offset>, answer: &mut Answer) {
    match end {
        Some(end) => answer.number(end.0),
        None => answer.add("-"),
    }
}
