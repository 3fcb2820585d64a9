ghost use Rattle.rt_ground.specs.Histories.{Meets};

use crate::naming::Naming;
use crate::shared_deep::SharedDeep;
use crate::shared_store::SharedStore;
use crate::shared_stream::SharedStream;

/// One who shares a ground: its store, its deep store and its stream, of each of which it has a front of its own.
#[derive(Drop)]
pub struct Caller<R, J: Naming> {
    pub store: SharedStore<R, J>,
    pub deep: SharedDeep<R, J>,
    pub stream: SharedStream<R, J>,
}

impl<R: Copy, J: Naming> Caller<R, J> {
    /// Takes in another caller of the same ground: of each history the longer of what the two have seen, and the numbers
    /// of both.
    pub fn meet(&mut self, other: Caller<R, J>)
        ensures store { Meets self.old.store other.store self.new.store }
        ensures deep { Meets self.old.deep other.deep self.new.deep }
        ensures stream { Meets self.old.stream other.stream self.new.stream }
    {
        let Caller {
            store,
            deep,
            stream,
        } = other;
        self.store.meet(store);
        self.deep.meet(deep);
        self.stream.meet(stream);
    }
}
