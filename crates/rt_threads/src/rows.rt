ghost use Rattle.rt_lists.specs.Members.{Has, IsFront};

use rt_base::{Instance, Offset, Partition, Sequence};
use rt_deep::{DeepRefused, DeepStore};
use rt_ground::{Naming, SharedStream};
use rt_model::{Key, Node, Seen, SegMeta, Status};
use rt_store::{Store, StoreRefused};
use rt_stream::Feed;
use std::alloc::{AllocError, Global};
use std::sync::Wait;

/// What a store that just started answers to a create of a node that is there, to two sets from one version, to a read of
/// a node that isn't there, and to a bump.
pub fn versions<S: Store>(alloc: Global, store: &mut S) -> Result<String, AllocError> {
    let created = store.create(alloc, Key::Boot(Instance(0)), &Node::Boot);
    let (once, twice) = set_twice(alloc, store);
    let absent = found(store.read(alloc, Key::Meta(Partition(0), Sequence(7))));
    let bumped = store.bump(alloc, Instance(0));
    format!(in alloc;
        "create {created:?}, set {once:?}, set again {twice:?}, read {absent:?}, bump {bumped:?}"
    )
}

/// What a store answers to a create of a node that isn't there, and to the same create again.
pub fn creates<S: Store>(alloc: Global, store: &mut S) -> Result<String, AllocError> {
    let once = store.create(alloc, Key::Boot(Instance(9)), &Node::Boot);
    let again = store.create(alloc, Key::Boot(Instance(9)), &Node::Boot);
    format!(in alloc; "create another {once:?}, create it again {again:?}")
}

/// Reads the first segment's node, and abandons it twice from the version that was read.
fn set_twice<S: Store>(
    alloc: Global,
    store: &mut S,
) -> (Result<u64, StoreRefused>, Result<u64, StoreRefused>) {
    match store.read(alloc, Key::Meta(Partition(0), Sequence(0))) {
        Ok(seen) => {
            let once = abandon(alloc, store, &seen);
            let twice = abandon(alloc, store, &seen);
            (once, twice)
        }
        Err(refused) => (Err(refused), Err(refused)),
    }
}

/// Abandons a segment that was read in progress.
fn abandon<S: Store>(alloc: Global, store: &mut S, seen: &Seen) -> Result<u64, StoreRefused>
    requires { Has (S.meaning store.old).seen seen.now }
    ensures { IsFront (S.meaning store.old).seen (S.meaning store.new).seen }
{
    let Key::Meta(_, _) = seen.key else {
        return Err(StoreRefused::NoNode);
    };
    let Node::Meta(meta) = &seen.node else {
        return Err(StoreRefused::NoNode);
    };
    let Status::InProgress = meta.status else {
        return Err(StoreRefused::NoNode);
    };
    let node = Node::Meta(SegMeta {
        name: meta.name.copy(alloc)?,
        start: meta.start,
        status: Status::Abandoned,
        written: meta.written,
    });
    store.compare_and_set(alloc, seen, &node)
}

/// A read's answer, without what was read.
fn found(answer: Result<Seen, StoreRefused>) -> Result<(), StoreRefused> {
    match answer {
        Ok(_) => Ok(()),
        Err(refused) => Err(refused),
    }
}

/// What an empty deep store answers to a put, the same put again, a put of other bytes there, and a get of another path.
pub fn once<D: DeepStore>(alloc: Global, deep: &mut D) -> Result<String, AllocError> {
    let put = name_of(deep.put(alloc, "a", &[1]));
    let again = name_of(deep.put(alloc, "a", &[1]));
    let other = name_of(deep.put(alloc, "a", &[2]));
    let absent = match deep.get(alloc, "b") {
        Ok(_) => "Ok",
        Err(refused) => name_of(Err(refused)),
    };
    format!(in alloc; "put {put}, put again {again}, put other bytes {other}, get another {absent}")
}

/// The answer of a put, without its digests.
fn name_of(answer: Result<(), DeepRefused>) -> &'static str {
    match answer {
        Ok(()) => "Ok",
        Err(DeepRefused::Absent) => "Absent",
        Err(DeepRefused::OtherBytes { .. }) => "OtherBytes",
        Err(DeepRefused::Failed) => "Failed",
        Err(DeepRefused::Memory) => "Memory",
    }
}

/// What an empty stream of one partition answers to a fetch past the end of three messages, and to an append to no
/// partition.
pub fn ends<R: Wait + Copy, J: Naming>(
    alloc: Global,
    stream: &mut SharedStream<R, J>,
) -> Result<String, AllocError> {
    let mut last = Ok(Offset(0));
    for number in 0..3u8 {
        last = stream.append(alloc, Partition(0), &[number]);
    }
    let past = match stream.fetch(alloc, Partition(0), Offset(4), 1) {
        Ok(_) => Ok(()),
        Err(refused) => Err(refused),
    };
    let nowhere = stream.append(alloc, Partition(1), &[0]);
    format!(in alloc; "append {last:?}, fetch {past:?}, append to no partition {nowhere:?}")
}
