//! Room for the rows of a view: groups count fewer than 2^63 rows.
ghost use Rattle.std.specs.Prelude.{◌+◌, ◌≤◌, length, IfOk, OnOk};
ghost use Rattle.rt_schema.specs.declared.schema.Schema.{Schema};
ghost use Rattle.rt_views.specs.Views.{rows_found, rows_if, rows_viewed};

use crate::{Found, View};
use std::alloc::AllocError;

/// The rows that are aggregated at once: half of what groups count, so that offline rows find room beside them.
const MOST_VIEWED: u64 = 4_611_686_018_427_387_904;

/// Fails where the views have more rows than are aggregated at once.
pub(crate) fn check_room(views: &[View]) -> Result<(), AllocError>
    ensures { OnOk result ((schema : Schema) → length (rows_viewed schema views.now) ≤ 4611686018427387904) }
{
    let mut room = MOST_VIEWED;
    for view in views {
        room = room_after(room, view.found.as_slice())?;
    }
    Ok(())
}

// What is left of some room beside what was found.
fn room_after(room: u64, found: &[Found]) -> Result<u64, AllocError>
    ensures { IfOk result (λ left. (schema : Schema) → length (rows_found schema found.now) + left ≤ room) }
{
    let mut left = room;
    for piece in found {
        left = room_beside(left, piece)?;
    }
    Ok(left)
}

// What is left of some room beside the rows of a piece.
#[tactic(auto, using(crate::proofs::ViewRows::if_short))]
fn room_beside(room: u64, piece: &Found) -> Result<u64, AllocError>
    ensures { IfOk result (λ left. (schema : Schema) → length (rows_if schema piece.now.rows) + left ≤ room) }
{
    match &piece.rows {
        Some(served) => {
            let count = served.rows.len() as u64;
            if count > room {
                Err(AllocError)
            } else {
                Ok(room - count)
            }
        }
        None => Ok(room),
    }
}
