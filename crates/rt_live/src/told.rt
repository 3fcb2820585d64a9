ghost use Rattle.std.specs.Prelude.{◌≡◌, ◌<◌, ◌^◌, IfOk, length, string_bytes, Some, None, if◌then◌else◌};
ghost use Rattle.rt_live.specs.Printed.{printed};
ghost use Rattle.rt_live.specs.Run.{journal_of};
ghost use Rattle.rt_live_join.specs.Joined.{joined_now};
ghost use Rattle.rt_live_join.specs.Left.{fronts_by};

use crate::output::output_of;
use crate::ran::Ran;
use rt_base::Offset;
use rt_ground::Naming;
use rt_lists::Items;
use rt_live_join::Joined;
use rt_live_output::Journal;
use rt_model::Seen;
use std::alloc::{AllocError, Global};

/// What is told of a run whose nodes were joined: these ends, the caller, and what is printed; with `journal` these
/// writes and all that the nodes left too. Fails only where memory is refused.
pub(crate) fn told<R: Copy, J: Naming>(
    alloc: Global,
    journal: bool,
    joined: Joined<R, J>,
    writes: Vec<Seen>,
    ends: Vec<Offset>,
) -> Result<Ran<R, J>, AllocError>
    requires few { length ends.items < 2 ^ 32 }
    ensures ends { IfOk result (λ ran. ran.ends.items ≡ ends.items) }
    ensures caller { IfOk result (λ ran. fronts_by ran.caller ≡ fronts_by joined.caller) }
    ensures text { IfOk result (λ ran. string_bytes ran.text
        ≡ printed joined.answers ends.items (journal_of journal writes.items (joined_now joined))) }
{
    let Joined {
        caller,
        heard,
        to_controllers,
        to_servers,
        mids,
        answers,
    } = joined;
    let shown = if_asked(
        journal,
        Journal {
            writes: Items::of(writes),
            heard,
            to_controllers,
            to_servers,
            mids,
        },
    );
    let text = output_of(alloc, answers.as_slice(), &ends, &shown)?;
    Ok(Ran { ends, caller, text })
}

// The journal, where it is asked for.
fn if_asked(asked: bool, journal: Journal) -> Option<Journal>
    ensures { result ≡ (if asked then Some journal else None) }
{
    if asked { Some(journal) } else { None }
}
