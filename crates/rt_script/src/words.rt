ghost use Rattle.std.specs.Prelude.{◌≡◌, Some, None, IfSome, IfNone};
ghost use Rattle.rt_script.specs.Words.{
  behind_letter,
  controller_of,
  force_job_of,
  index_of,
  instance_of,
  job_of,
  message_of,
  node_of,
  partition_of,
  query_of,
  replica_of,
  segment_of,
};

use rt_base::limits::LAST_NUMBER;
use rt_base::{ControllerId, Instance, NodeId, Partition, Sequence};
use rt_lines::{number_up_to, part_at};

/// A segment as a line names it.
#[derive(Clone, Copy)]
pub(crate) struct SegmentAt {
    pub(crate) partition: Partition,
    pub(crate) sequence: Sequence,
}

/// A server's replica of a segment as a line names it.
#[derive(Clone, Copy)]
pub(crate) struct ReplicaAt {
    pub(crate) instance: Instance,
    pub(crate) segment: SegmentAt,
}

/// The number of a partition, a sequence, a node or a query.
pub(crate) fn index(word: &[u8]) -> Option<u32>
    ensures { result ≡ index_of word.now }
{
    match number_up_to(u64::from(LAST_NUMBER), word) {
        Some(number) => Some(number as u32),
        None => None,
    }
}

/// `P`
pub(crate) fn partition(word: &[u8]) -> Option<Partition>
    ensures { result ≡ partition_of word.now }
{
    let number = index(word)?;
    Some(Partition(number))
}

/// `P/Q`
pub(crate) fn segment(word: &[u8]) -> Option<SegmentAt>
    ensures { result ≡ segment_of word.now }
{
    let (first, second) = part_at(word, b'/')?;
    let partition = partition(first)?;
    let sequence = index(second)?;
    Some(SegmentAt {
        partition,
        sequence: Sequence(sequence),
    })
}

/// `sK`
pub(crate) fn instance(word: &[u8]) -> Option<Instance>
    ensures { result ≡ instance_of word.now }
{
    let number = index(behind(b's', word)?)?;
    Some(Instance(number))
}

/// `cK`
pub(crate) fn controller(word: &[u8]) -> Option<ControllerId>
    ensures { result ≡ controller_of word.now }
{
    let number = index(behind(b'c', word)?)?;
    Some(ControllerId(number))
}

/// `sK` or `cK`
pub(crate) fn node(word: &[u8]) -> Option<NodeId>
    ensures { result ≡ node_of word.now }
{
    match instance(word) {
        Some(instance) => Some(NodeId::Server(instance)),
        None => {
            let controller = controller(word)?;
            Some(NodeId::Controller(controller))
        }
    }
}

/// `mN`
pub(crate) fn message(word: &[u8]) -> Option<u64>
    ensures { result ≡ message_of word.now }
{
    let number = behind(b'm', word)?;
    number_up_to(u64::MAX, number)
}

/// `jN`
pub(crate) fn job(word: &[u8]) -> Option<u64>
    ensures { result ≡ job_of word.now }
{
    let number = behind(b'j', word)?;
    number_up_to(u64::MAX, number)
}

/// `fN`
pub(crate) fn force_job(word: &[u8]) -> Option<u64>
    ensures { result ≡ force_job_of word.now }
{
    let number = behind(b'f', word)?;
    number_up_to(u64::MAX, number)
}

/// `qN`
pub(crate) fn query(word: &[u8]) -> Option<u32>
    ensures { result ≡ query_of word.now }
{
    let number = behind(b'q', word)?;
    index(number)
}

/// `sK P/Q`
pub(crate) fn replica(text: &[u8]) -> Option<ReplicaAt>
    ensures { result ≡ replica_of text.now }
{
    let (first, second) = part_at(text, b' ')?;
    let instance = instance(first)?;
    let segment = segment(second)?;
    Some(ReplicaAt { instance, segment })
}

// What stands behind a word's first letter, where it is this one.
fn behind(letter: u8, word: &[u8]) -> Option<&[u8]>
    ensures some { IfSome result (λ rest. behind_letter letter word.now ≡ Some rest.now) }
    ensures none { IfNone result (behind_letter letter word.now ≡ None) }
{
    match word {
        [first, rest @ ..] if *first == letter => Some(rest),
        _ => None,
    }
}
