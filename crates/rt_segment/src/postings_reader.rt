//! The postings of a column.
ghost use Rattle.std.specs.Prelude.{◌≡◌, ◌∷◌, length};
ghost use Rattle.std.specs.List.{flat_map};
ghost use Rattle.rt_segment.specs.Cursor.{Gives};
ghost use Rattle.rt_segment.specs.Reading.{this_number, numbers_at};

use crate::cursor::Cursor;
use crate::segment_refused::SegmentRefused;
use rt_postings::Postings;

/// Reads for each of so many ids the number of its rows and the rows, which are those of the postings.
pub(crate) fn check_postings(
    postings: &Postings,
    cardinality: u32,
    cursor: &mut Cursor<'_>,
) -> Result<(), SegmentRefused>
    requires { cardinality ≡ length postings.now }
    ensures { Gives (λ u. u) result cursor.new (numbers_at (flat_map (λ rows. length rows ∷ rows) postings.now) cursor.old) }
{
    for id in 0..cardinality {
        check_docs(postings.docs(id), cursor)?;
    }
    Ok(())
}

// The number of the rows, and the rows.
#[tactic(auto, unfolding(crate::specs::Reading::numbers_at))]
fn check_docs(docs: &[u32], cursor: &mut Cursor<'_>) -> Result<(), SegmentRefused>
    ensures { Gives (λ u. u) result cursor.new (numbers_at (length docs.now ∷ docs.now) cursor.old) }
{
    check_number(docs.len() as u64, cursor)?;
    check_rows(docs, cursor)
}

// These rows.
fn check_rows(rows: &[u32], cursor: &mut Cursor<'_>) -> Result<(), SegmentRefused>
    ensures { Gives (λ u. u) result cursor.new (numbers_at rows.now cursor.old) }
{
    for row in rows {
        check_number(u64::from(*row), cursor)?;
    }
    Ok(())
}

fn check_number(wanted: u64, cursor: &mut Cursor<'_>) -> Result<(), SegmentRefused>
    ensures { Gives (λ u. u) result cursor.new (this_number wanted cursor.old) }
{
    let wrong = cursor.breach();
    let number = cursor.word()?;
    if u64::from(number) != wanted {
        return Err(wrong);
    }
    Ok(())
}
