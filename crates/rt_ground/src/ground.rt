ghost use Rattle.std.specs.Prelude.{◌≡◌, ◌≤◌, ◌<◌, ◌∷◌, map, length, IfOk};
ghost use Rattle.std.specs.List.{range_with_len};
ghost use Rattle.std.specs.Vec.Iter.{into_iter_items, into_iter_len};
ghost use Rattle.rt_model.specs.Setup.{IsSetup};
ghost use Rattle.rt_store.specs.Contents.{starting_of};
ghost use Rattle.rt_ground.specs.Callers.{new_caller, fronts_from};
ghost use Rattle.rt_deep.specs.Files.{AreOnce};
ghost use Rattle.rt_ground.specs.Histories.{whats, SeesMore, AreOfCallers};
ghost use Rattle.rt_ground.specs.Lawfulness.{IsLawfulStore};
ghost use Rattle.rt_ground.specs.StoreCalls.{ShowsAll};

use crate::appended::Appended;
use crate::blanks::Blanks;
use crate::caller::Caller;
use crate::deep_value::DeepValue;
use crate::locked::Locked;
use crate::naming::Naming;
use crate::shared_deep::SharedDeep;
use crate::shared_store::SharedStore;
use crate::shared_stream::SharedStream;
use crate::store_value::StoreValue;
use crate::stream_value::StreamValue;
use rt_deep::DeepPut;
use rt_front::Front;
use rt_model::{Seen, Setup};
use std::alloc::{AllocError, Global};
use std::marker::Model;
use std::sync::Wait;
use std::vec::IntoIter;

/// A store, a deep store and a stream, each behind a lock, and what their callers share. Contracts see it as the names of
/// its three histories.
///
/// A call of a shared store tells its caller what is its own; that each entry was lawful after those before it, and whose
/// entry it is, reaches a caller by `tell` and `history` alone.
#[derive(Drop)]
pub struct Ground<R, J: Naming> {
    rt: R,
    store: Locked<Seen, StoreValue<J>>,
    deep: Locked<DeepPut, DeepValue<J>>,
    stream: Locked<Appended, StreamValue<J>>,
}

impl<R, J: Naming> Model for Ground<R, J> {
    ghost use Rattle.rt_ground.specs.declared.blanks.Blanks.{Blanks};

    ghost Value = { Blanks };

    ghost use Rattle.std.specs.Prelude.{◌≡◌};

    ghost view = { λ g. J.names };

    ghost invariant = { λ g. (g.store ≡ J.names.store) × (g.deep ≡ J.names.deep) × (g.stream ≡ J.names.stream) };
}

impl<R: Wait + Copy, J: Naming> Ground<R, J> {
    /// Founds a ground with the starting contents of a cluster, no file and no message, and this many callers; caller k
    /// has the number k in each history.
    pub fn found(
        rt: R,
        alloc: Global,
        blanks: Blanks,
        setup: &Setup,
        callers: u32,
    ) -> Result<(Ground<R, J>, Vec<Caller<R, J>>), AllocError>
        requires names { (blanks ≡ J.names) × (starting_of setup.now ≡ J.starting) }
        requires setup { IsSetup setup.now }
        requires callers { callers ≡ J.callers }
        requires some { 1 ≤ callers }
        ensures ground { IfOk result (λ r. r.0 ≡ J.names) }
        ensures callers { IfOk result (λ r. r.1.items ≡ map (new_caller J.names) (range_with_len 0 callers)) }
    {
        let Blanks {
            store,
            deep,
            stream,
        } = blanks;
        let (seen, store, stores) = StoreValue::found(alloc, store, setup, callers)?;
        let store = Locked::of(alloc, seen, store)?;
        let (put, deep, deeps) = DeepValue::found(alloc, deep, callers)?;
        let deep = Locked::of(alloc, put, deep)?;
        let (appended, stream, streams) = StreamValue::found(
            alloc,
            stream,
            setup.partitions,
            callers,
        )?;
        let stream = Locked::of(alloc, appended, stream)?;
        let ground = Ground {
            rt,
            store,
            deep,
            stream,
        };
        let made = ground.callers(alloc, callers, stores, deeps, streams)?;
        Ok((ground, made))
    }

    /// Brings a caller's fronts up to what is shared: of each of the three histories it has then seen all that there was
    /// at a moment of the call. It takes no memory.
    pub fn tell(&self, caller: &mut Caller<R, J>)
        ensures store { SeesMore caller.old.store caller.new.store
            × AreOfCallers J.callers caller.new.store.seen × IsLawfulStore J.starting caller.new.store.seen }
        ensures deep { SeesMore caller.old.deep caller.new.deep
            × AreOfCallers J.callers caller.new.deep.seen × AreOnce (whats caller.new.deep.seen) }
        ensures stream { SeesMore caller.old.stream caller.new.stream
            × AreOfCallers J.callers caller.new.stream.seen }
    {
        caller.store.tell(&self.rt, &self.store);
        caller.deep.tell(&self.rt, &self.deep);
        caller.stream.tell(&self.rt, &self.stream);
    }

    /// The store's whole history at a moment of the call, the earliest write first, which the caller has seen then.
    pub fn history(&self, alloc: Global, caller: &mut Caller<R, J>) -> Result<Vec<Seen>, AllocError>
        ensures sees { SeesMore caller.old.store caller.new.store }
        ensures callers { AreOfCallers J.callers caller.new.store.seen }
        ensures whole { IfOk result (λ writes. ShowsAll J.starting caller.old.store caller.new.store writes.items) }
        ensures others { (caller.new.deep ≡ caller.old.deep) × (caller.new.stream ≡ caller.old.stream) }
    {
        caller.store.history(alloc, &self.rt, &self.store)
    }

    /// The callers of these fronts.
    fn callers(
        &self,
        alloc: Global,
        count: u32,
        stores: Vec<Front<Seen>>,
        deeps: Vec<Front<DeepPut>>,
        streams: Vec<Front<Appended>>,
    ) -> Result<Vec<Caller<R, J>>, AllocError>
        requires stores { stores.items ≡ fronts_from J.names.store 0 count }
        requires deeps { deeps.items ≡ fronts_from J.names.deep 0 count }
        requires streams { streams.items ≡ fronts_from J.names.stream 0 count }
        ensures { IfOk result (λ callers. callers.items ≡ map (new_caller J.names) (range_with_len 0 count)) }
    {
        let mut stores = stores.into_iter();
        let mut deeps = deeps.into_iter();
        let mut streams = streams.into_iter();
        let mut callers = Vec::with_capacity(alloc, count as usize)?;
        for _number in 0..count {
            let store = next_of(&mut stores);
            let deep = next_of(&mut deeps);
            let stream = next_of(&mut streams);
            callers.push_reserved(self.caller(store, deep, stream)?);
        }
        Ok(callers)
    }

    /// The caller of these fronts.
    fn caller(
        &self,
        store: Front<Seen>,
        deep: Front<DeepPut>,
        stream: Front<Appended>,
    ) -> Result<Caller<R, J>, AllocError>
        requires { (store.chronicle ≡ J.names.store) × (deep.chronicle ≡ J.names.deep)
            × (stream.chronicle ≡ J.names.stream) }
        ensures { IfOk result (λ caller. caller ≡ record { store = store; deep = deep; stream = stream }) }
    {
        Ok(Caller {
            store: SharedStore::of(self.rt, &self.store, store)?,
            deep: SharedDeep::of(self.rt, &self.deep, deep)?,
            stream: SharedStream::of(self.rt, &self.stream, stream)?,
        })
    }
}

/// The next of some fronts, of which there is one more.
fn next_of<T: Drop>(fronts: &mut IntoIter<Front<T>, Global>) -> Front<T>
    requires left { into_iter_len fronts.old ≡ length (into_iter_items fronts.old) }
    requires some { 0 < length (into_iter_items fronts.old) }
    ensures items { into_iter_items fronts.old ≡ result ∷ into_iter_items fronts.new }
    ensures left { into_iter_len fronts.new ≡ length (into_iter_items fronts.new) }
{
    let Some(front) = fronts.next() else {
        unreachable!()
    };
    front
}
