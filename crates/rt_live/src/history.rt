ghost use Rattle.std.specs.Prelude.{◌≡◌, IfOk};
ghost use Rattle.std.specs.List.{range_with_len};
ghost use Rattle.rt_ground.specs.Histories.{AreOfCallers};
ghost use Rattle.rt_ground.specs.StoreCalls.{seen_by};
ghost use Rattle.rt_live_join.specs.Left.{fronts_by};

use rt_ground::{Caller, Ground, Naming};
use rt_model::Seen;
use std::alloc::{AllocError, Global};
use std::sync::Wait;

/// The whole history of the store, its starting contents included, as the caller knows it who has the numbers of all
/// callers: it learns nothing new by it. Fails only where memory is refused.
pub(crate) fn whole_history<R: Wait + Copy, J: Naming>(
    alloc: Global,
    ground: &Ground<R, J>,
    caller: &mut Caller<R, J>,
) -> Result<Vec<Seen>, AllocError>
    requires all { caller.old.store.numbers ≡ range_with_len 0 J.callers }
    requires callers { AreOfCallers J.callers caller.old.store.seen }
    ensures whole { IfOk result (λ writes. writes.items ≡ seen_by J.starting caller.old.store) }
    ensures same { fronts_by caller.new ≡ fronts_by caller.old }
{
    ground.history(alloc, caller)
}
