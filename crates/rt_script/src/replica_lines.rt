ghost use Rattle.std.specs.Prelude.{◌≡◌};
ghost use Rattle.rt_script.specs.ReplicaLines.{
  batch_of,
  build_of,
  consume_of,
  download_of,
  extend_of,
  force_of,
  numbered_replica_of,
  report_of,
  stop_of,
  transit_of,
};

use crate::words::{ReplicaAt, instance, replica, segment};
use rt_events::Event;
use rt_lines::{number_up_to, part_at};

/// A replica and a number.
#[derive(Clone, Copy)]
pub(crate) struct NumberedReplica {
    pub(crate) replica: ReplicaAt,
    pub(crate) number: u64,
}

/// `sK P/Q N`
pub(crate) fn consume(text: &[u8]) -> Option<Event>
    ensures { result ≡ consume_of text.now }
{
    let at = numbered_replica(text)?;
    Some(Event::Consume {
        instance: at.replica.instance,
        partition: at.replica.segment.partition,
        sequence: at.replica.segment.sequence,
        max: batch(at.number),
    })
}

/// `sK P/Q`
pub(crate) fn force(text: &[u8]) -> Option<Event>
    ensures { result ≡ force_of text.now }
{
    let at = replica(text)?;
    Some(Event::Force {
        instance: at.instance,
        partition: at.segment.partition,
        sequence: at.segment.sequence,
    })
}

/// `sK P/Q`
pub(crate) fn stop(text: &[u8]) -> Option<Event>
    ensures { result ≡ stop_of text.now }
{
    let at = replica(text)?;
    Some(Event::Stop {
        instance: at.instance,
        partition: at.segment.partition,
        sequence: at.segment.sequence,
    })
}

/// `sK P/Q`
pub(crate) fn build(text: &[u8]) -> Option<Event>
    ensures { result ≡ build_of text.now }
{
    let at = replica(text)?;
    Some(Event::Build {
        instance: at.instance,
        partition: at.segment.partition,
        sequence: at.segment.sequence,
    })
}

/// `sK P/Q`
pub(crate) fn report(text: &[u8]) -> Option<Event>
    ensures { result ≡ report_of text.now }
{
    let at = replica(text)?;
    Some(Event::Report {
        instance: at.instance,
        partition: at.segment.partition,
        sequence: at.segment.sequence,
    })
}

/// `sK P/Q N`
pub(crate) fn extend(text: &[u8]) -> Option<Event>
    ensures { result ≡ extend_of text.now }
{
    let at = numbered_replica(text)?;
    Some(Event::Extend {
        instance: at.replica.instance,
        partition: at.replica.segment.partition,
        sequence: at.replica.segment.sequence,
        millis: at.number,
    })
}

/// `sK P/Q`
pub(crate) fn transit(text: &[u8]) -> Option<Event>
    ensures { result ≡ transit_of text.now }
{
    let at = replica(text)?;
    Some(Event::Transit {
        instance: at.instance,
        partition: at.segment.partition,
        sequence: at.segment.sequence,
    })
}

/// `sK P/Q`
pub(crate) fn download(text: &[u8]) -> Option<Event>
    ensures { result ≡ download_of text.now }
{
    let at = replica(text)?;
    Some(Event::Download {
        instance: at.instance,
        partition: at.segment.partition,
        sequence: at.segment.sequence,
    })
}

// `sK P/Q N`
fn numbered_replica(text: &[u8]) -> Option<NumberedReplica>
    ensures { result ≡ numbered_replica_of text.now }
{
    let (first, text) = part_at(text, b' ')?;
    let instance = instance(first)?;
    let (second, third) = part_at(text, b' ')?;
    let segment = segment(second)?;
    let number = number_up_to(u64::MAX, third)?;
    Some(NumberedReplica {
        replica: ReplicaAt { instance, segment },
        number,
    })
}

// The messages of a batch; no batch has this number of them where it is 0.
fn batch(count: u64) -> u32
    ensures { result ≡ batch_of count }
{
    if count <= 4_294_967_295 {
        count as u32
    } else {
        0
    }
}
