ghost use Rattle.std.specs.Prelude.{◌≡◌};
ghost use Rattle.rt_script.specs.BrokerLines.{answer_of, piece_of, route_of};

use crate::words::{instance, partition, query, segment};
use rt_events::Event;
use rt_lines::part_at;

/// `qN P`
pub(crate) fn route(text: &[u8]) -> Option<Event>
    ensures { result ≡ route_of text.now }
{
    let (first, second) = part_at(text, b' ')?;
    let query = query(first)?;
    let partition = partition(second)?;
    Some(Event::Route { query, partition })
}

/// `qN P/Q sK`
pub(crate) fn piece(text: &[u8]) -> Option<Event>
    ensures { result ≡ piece_of text.now }
{
    let (first, text) = part_at(text, b' ')?;
    let query = query(first)?;
    let (second, third) = part_at(text, b' ')?;
    let segment = segment(second)?;
    let instance = instance(third)?;
    Some(Event::Piece {
        query,
        partition: segment.partition,
        sequence: segment.sequence,
        instance,
    })
}

/// `qN`
pub(crate) fn answer(text: &[u8]) -> Option<Event>
    ensures { result ≡ answer_of text.now }
{
    let query = query(text)?;
    Some(Event::Answer { query })
}
