ghost use Rattle.std.specs.Prelude.{◌≡◌, ◌≤◌, length, OnOk, OnErr};
ghost use Rattle.rt_agg.specs.ResultHolder.{put_at};

use rt_lists::Items;
use std::alloc::AllocError;

/// Puts an item at a place of a list: over the one that stands there, or at the end. Where memory runs out, all is as before.
#[tactic(auto, using(crate::proofs::Slots::put_over, crate::proofs::Slots::put_last))]
pub(crate) fn put<T: Drop>(list: &mut Items<T>, at: usize, item: T) -> Result<(), AllocError>
    requires { at ≤ length list.old }
    ensures ok { OnOk result (list.new ≡ put_at at item list.old) }
    ensures err { OnErr result (list.new ≡ list.old) }
{
    if at < list.len() {
        *list.at_mut(at) = item;
        Ok(())
    } else {
        list.push(item)
    }
}
