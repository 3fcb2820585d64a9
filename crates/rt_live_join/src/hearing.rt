ghost use Rattle.std.specs.Prelude.{true, IfOk};
ghost use Rattle.rt_live_join.specs.Left.{IsShown};

use rt_lists::Items;
use rt_live_output::Heard;
use std::alloc::{AllocError, Global};

/// What each controller heard, where a journal is shown; else nothing. Fails where memory is refused, or was refused
/// to a controller for its journal.
pub(crate) fn heard_by(
    alloc: Global,
    journal: bool,
    heard: Vec<Option<Items<Heard>>>,
) -> Result<Items<Items<Heard>>, AllocError>
    ensures { IfOk result (IsShown journal heard.items) }
{
    if journal {
        heard_by_all(alloc, heard)
    } else {
        Ok(Items::new(alloc))
    }
}

// What each controller heard.
fn heard_by_all(
    alloc: Global,
    heard: Vec<Option<Items<Heard>>>,
) -> Result<Items<Items<Heard>>, AllocError>
    ensures { IfOk result (λ all. IsShown true heard.items all) }
{
    let mut all = Items::new(alloc);
    for one in heard {
        match one {
            Some(lines) => all.push(lines)?,
            None => return Err(AllocError),
        }
    }
    Ok(all)
}
