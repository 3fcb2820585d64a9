use crate::told::{Told, path_of};
use rt_base::{Instance, Partition};
use rt_deep::DeepStore;
use rt_ground::{Caller, Naming};
use rt_store::Store;
use std::alloc::Global;
use std::sync::Wait;
use std::sync::atomic::{AtomicU64, Ordering};
use std::thread;

/// How many turns there are.
pub const TURNS: u8 = 200;

/// A caller in a thread of its own: the first two write in turn, and the third reads meanwhile.
#[derive(Drop)]
pub struct Taker<R, J: Naming> {
    pub caller: Caller<R, J>,
    /// How many writes were carried out.
    pub wrote: u64,
    pub told: Told,
}

impl<R: Wait + Copy, J: Naming> Taker<R, J> {
    /// Does the part of the caller of this number.
    pub fn run(&mut self, rt: &R, alloc: Global, number: usize, turn: &AtomicU64) {
        match number {
            0 => self.write(rt, alloc, false, turn),
            1 => self.write(rt, alloc, true, turn),
            _ => self.read(rt, alloc, turn),
        }
    }

    /// Writes at each of its turns: those of odd number, or the others.
    fn write(&mut self, rt: &R, alloc: Global, odd: bool, turn: &AtomicU64) {
        for number in 0..TURNS {
            if (number % 2 == 1) == odd {
                wait_for(rt, turn, u64::from(number));
                self.write_once(alloc, number);
                turn.fetch_add(1, Ordering::SeqCst);
            }
        }
    }

    /// Writes a boot node, a file and a message.
    fn write_once(&mut self, alloc: Global, number: u8) {
        let Ok(path) = path_of(alloc, number) else {
            return;
        };
        let bumped = self.caller.store.bump(alloc, Instance(0)).is_ok();
        let put = self
            .caller
            .deep
            .put(alloc, path.as_str(), &[number])
            .is_ok();
        let added = self
            .caller
            .stream
            .append(alloc, Partition(0), &[number])
            .is_ok();
        if bumped && put && added {
            self.wrote = self.wrote.saturating_add(1);
        }
    }

    /// Reads until all turns are over, and once more then.
    fn read(&mut self, rt: &R, alloc: Global, turn: &AtomicU64) {
        for _ in rt.forever() {
            let over = turn.load(Ordering::SeqCst) >= u64::from(TURNS);
            self.told.read_version(alloc, &mut self.caller.store);
            if over {
                break;
            }
            thread::yield_now();
        }
        self.told.count(alloc, &mut self.caller, TURNS);
    }
}

/// Waits until it is the turn of this number.
fn wait_for<R: Wait>(rt: &R, turn: &AtomicU64, number: u64) {
    for _ in rt.forever() {
        if turn.load(Ordering::SeqCst) == number {
            return;
        }
        thread::yield_now();
    }
    unreachable!()
}
