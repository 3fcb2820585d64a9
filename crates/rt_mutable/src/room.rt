//! Room for the rows of a segment, in lists that have one item a row.
ghost use Rattle.std.specs.Prelude.{◌≡◌, ◌<◌, vec_len, vec_capacity, OnOk};

use std::alloc::AllocError;

/// The number of rows that the first one makes room for. Most segments get at least as many, and a list that
/// begins with room for four is moved six times until then.
const FIRST_ROWS: usize = 256;

/// Makes room for one row more; the first row makes it for many.
pub(crate) fn reserve_row<T>(rows: &mut Vec<T>) -> Result<(), AllocError>
    ensures items { rows.new.items ≡ rows.old.items }
    ensures room { OnOk result (vec_len rows.new < vec_capacity rows.new) }
{
    let more = if rows.is_empty() { FIRST_ROWS } else { 1 };
    rows.reserve(more)
}
