ghost use Rattle.std.specs.Prelude.{◌≡◌, IfOk};
ghost use Rattle.rt_script.specs.OutsideLines.{fault_of, kept_of, lead_of, on_of, produce_of, show_of, tick_of};

use crate::words::{controller, partition, segment};
use rt_events::Event;
use rt_lines::{number_up_to, part_at};
use rt_lists::Bytes;
use std::alloc::{AllocError, Global};

/// `P TEXT`
pub(crate) fn produce(alloc: Global, text: &[u8]) -> Result<Option<Event>, AllocError>
    ensures { IfOk result (λ event. event ≡ produce_of text.now) }
{
    let Some((word, text)) = part_at(text, b' ') else {
        return Ok(None);
    };
    let Some(partition) = partition(word) else {
        return Ok(None);
    };
    let message = Bytes::copied_from(alloc, text)?;
    Ok(Some(Event::Produce { partition, message }))
}

/// `N`
pub(crate) fn tick(text: &[u8]) -> Option<Event>
    ensures { result ≡ tick_of text.now }
{
    let millis = number_up_to(u64::MAX, text)?;
    Some(Event::Tick { millis })
}

/// `cK on` or `cK off`
pub(crate) fn lead(text: &[u8]) -> Option<Event>
    ensures { result ≡ lead_of text.now }
{
    let (first, second) = part_at(text, b' ')?;
    let controller = controller(first)?;
    let on = on(second)?;
    Some(Event::Lead { controller, on })
}

fn on(word: &[u8]) -> Option<bool>
    ensures { result ≡ on_of word.now }
{
    if word == b"on".as_slice() {
        Some(true)
    } else if word == b"off".as_slice() {
        Some(false)
    } else {
        None
    }
}

/// `store lost`, `store kept`, `deep lost` or `deep kept`
pub(crate) fn fault(text: &[u8]) -> Option<Event>
    ensures { result ≡ fault_of text.now }
{
    let (first, second) = part_at(text, b' ')?;
    let kept = kept(second)?;
    if first == b"store".as_slice() {
        Some(Event::FaultStore { kept })
    } else if first == b"deep".as_slice() {
        Some(Event::FaultDeep { kept })
    } else {
        None
    }
}

fn kept(word: &[u8]) -> Option<bool>
    ensures { result ≡ kept_of word.now }
{
    if word == b"kept".as_slice() {
        Some(true)
    } else if word == b"lost".as_slice() {
        Some(false)
    } else {
        None
    }
}

/// `meta P/Q` or `ideal`
pub(crate) fn show(text: &[u8]) -> Option<Event>
    ensures { result ≡ show_of text.now }
{
    if text == b"ideal".as_slice() {
        return Some(Event::ShowIdeal);
    }
    let (first, second) = part_at(text, b' ')?;
    if first != b"meta".as_slice() {
        return None;
    }
    let segment = segment(second)?;
    Some(Event::ShowMeta {
        partition: segment.partition,
        sequence: segment.sequence,
    })
}
