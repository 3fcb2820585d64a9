ghost use Rattle.std.specs.Prelude.{◌≡◌};
ghost use Rattle.rt_script.specs.MacroLines.{exchange_of, fill_of, settle_of};

use crate::Macro;
use crate::words::{controller, instance, partition, segment};
use rt_lines::{number_up_to, part_at};

/// `P N`
pub(crate) fn fill(text: &[u8]) -> Option<Macro>
    ensures { result ≡ fill_of text.now }
{
    let (first, second) = part_at(text, b' ')?;
    let partition = partition(first)?;
    let count = number_up_to(u64::MAX, second)?;
    Some(Macro::Fill { partition, count })
}

/// `sK P/Q cK`
pub(crate) fn exchange(text: &[u8]) -> Option<Macro>
    ensures { result ≡ exchange_of text.now }
{
    let (first, text) = part_at(text, b' ')?;
    let instance = instance(first)?;
    let (second, third) = part_at(text, b' ')?;
    let segment = segment(second)?;
    let controller = controller(third)?;
    Some(Macro::Exchange {
        instance,
        partition: segment.partition,
        sequence: segment.sequence,
        controller,
    })
}

/// `N`
pub(crate) fn settle(text: &[u8]) -> Option<Macro>
    ensures { result ≡ settle_of text.now }
{
    let rounds = number_up_to(u64::MAX, text)?;
    Some(Macro::Settle { rounds })
}
