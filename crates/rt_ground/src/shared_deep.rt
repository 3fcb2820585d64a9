ghost use Rattle.std.specs.Prelude.{◌≡◌, IfOk};
ghost use Rattle.rt_deep.specs.Calls.{Puts, Gets};
ghost use Rattle.rt_deep.specs.Files.{AreOnce};
ghost use Rattle.rt_ground.specs.Histories.{whats, Meets, SeesMore, AreOfCallers};
ghost use Rattle.rt_ground.specs.DeepCalls.{shared_meaning, SharesBy};

use crate::deep_value::DeepValue;
use crate::locked::Locked;
use crate::naming::Naming;
use rt_deep::{DeepPut, DeepRefused, DeepStore};
use rt_front::Front;
use rt_lists::Bytes;
use std::alloc::{AllocError, Global};
use std::marker::Model;
use std::sync::Wait;

/// The deep store as one of its callers has it. Contracts see the caller's front. It meets no fault.
///
/// Each call takes the lock, makes one call of the value behind it and lets go.
#[derive(Drop)]
pub struct SharedDeep<R, J: Naming> {
    rt: R,
    shared: Locked<DeepPut, DeepValue<J>>,
    front: Front<DeepPut>,
}

impl<R, J: Naming> Model for SharedDeep<R, J> {
    ghost use Rattle.rt_deep.specs.declared.deep_put.DeepPut.{DeepPut};
    ghost use Rattle.rt_front.specs.Histories.{Known};

    ghost Value = { Known DeepPut };

    ghost use Rattle.std.specs.Prelude.{◌≡◌};

    ghost view = { λ s. s.front };

    ghost invariant = { λ s. (s.shared ≡ J.names.deep) × (s.front.chronicle ≡ J.names.deep) };
}

impl<R: Copy, J: Naming> SharedDeep<R, J> {
    /// One who shares this value, with this front.
    pub(crate) fn of(
        rt: R,
        locked: &Locked<DeepPut, DeepValue<J>>,
        front: Front<DeepPut>,
    ) -> Result<Self, AllocError>
        requires { (locked.now ≡ J.names.deep) × (front.chronicle ≡ J.names.deep) }
        ensures { IfOk result (λ shared. shared ≡ front) }
    {
        Ok(SharedDeep {
            rt,
            shared: locked.again()?,
            front,
        })
    }

    /// What the caller has seen, and its own entries.
    pub fn front(&self) -> &Front<DeepPut>
        ensures { result.now ≡ self.now }
    {
        &self.front
    }

    /// Takes in the front of another caller.
    pub(crate) fn meet(&mut self, other: SharedDeep<R, J>)
        ensures { Meets self.old other self.new }
    {
        let SharedDeep { front, .. } = other;
        self.front.meet(self.shared.chronicle(), front);
    }
}

impl<R: Wait + Copy, J: Naming> SharedDeep<R, J> {
    /// Brings the caller's front up to all files at a moment of the call.
    pub(crate) fn tell(&mut self, rt: &R, locked: &Locked<DeepPut, DeepValue<J>>)
        requires { locked.now ≡ J.names.deep }
        ensures sees { SeesMore self.old self.new }
        ensures callers { AreOfCallers J.callers self.new.seen }
        ensures once { AreOnce (whats self.new.seen) }
    {
        let mut value = locked.lock(rt);
        value.tell(locked.chronicle(), &mut self.front);
    }
}

impl<R: Wait + Copy, J: Naming> DeepStore for SharedDeep<R, J> {
    ghost use Rattle.rt_ground.specs.DeepCalls.{shared_meaning};

    ghost meaning = { shared_meaning };

    fn put(&mut self, alloc: Global, path: &str, bytes: &[u8]) -> Result<(), DeepRefused>
        ensures deep { Puts (shared_meaning self.old) (shared_meaning self.new) path.now bytes.now result }
        ensures mine { SharesBy (record { path = path.now; bytes = bytes.now }) self.old self.new result }
    {
        let mut value = self.shared.lock(&self.rt);
        value.put(alloc, self.shared.chronicle(), &mut self.front, path, bytes)
    }

    fn get(&mut self, alloc: Global, path: &str) -> Result<Bytes, DeepRefused>
        ensures deep { Gets (shared_meaning self.old) (shared_meaning self.new) path.now result }
        ensures mine { SeesMore self.old self.new }
    {
        let mut value = self.shared.lock(&self.rt);
        value.get(alloc, self.shared.chronicle(), &mut self.front, path)
    }
}
