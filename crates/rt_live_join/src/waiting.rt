ghost use Rattle.std.specs.Prelude.{IsTrue};

use rt_link::never;
use std::sync::Wait;

/// Goes on where this holds, else waits for ever. It is for what always holds, as the nodes have ended.
pub(crate) fn wait_unless<R: Wait>(rt: &R, holds: bool)
    ensures { IsTrue holds }
{
    if !holds {
        never::<(), R>(rt);
    }
}
