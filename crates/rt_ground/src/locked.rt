ghost use Rattle.std.specs.Prelude.{◌≡◌, IfOk};

use rt_front::Chronicle;
use std::alloc::{AllocError, Global};
use std::marker::Model;
use std::sync::{Arc, Mutex, MutexGuard, Wait};

/// A value behind its lock, beside the chronicle of its history. Contracts see the name of the history.
#[derive(Drop)]
pub struct Locked<T, V> {
    chronicle: Arc<Chronicle<T>, Global>,
    value: Arc<Mutex<V>, Global>,
}

impl<T, V> Model for Locked<T, V> {
    ghost use Rattle.atomic_table.specs.Seated.{TableId};

    ghost Value = { TableId };

    ghost use Rattle.std.specs.Arc.{arc_value};

    ghost view = { λ l. arc_value l.chronicle };
}

impl<T, V> Locked<T, V> {
    /// The chronicle of its history.
    pub(crate) fn chronicle(&self) -> &Chronicle<T>
        ensures { result.now ≡ self.now }
    {
        &self.chronicle
    }

    /// The value, for this thread alone until it lets go.
    pub(crate) fn lock<R: Wait>(&self, rt: &R) -> MutexGuard<'_, V> {
        self.value.lock(rt)
    }
}

impl<T: Drop, V: Drop> Locked<T, V> {
    /// Puts a value behind a lock of its own.
    pub(crate) fn of(alloc: Global, chronicle: Chronicle<T>, value: V) -> Result<Self, AllocError>
        ensures { IfOk result (λ locked. locked ≡ chronicle) }
    {
        Ok(Locked {
            chronicle: Arc::new(alloc, chronicle)?,
            value: Arc::new(alloc, Mutex::new(value))?,
        })
    }

    /// The same value, for one more who shares it.
    pub(crate) fn again(&self) -> Result<Self, AllocError>
        ensures { IfOk result (λ locked. locked ≡ self.now) }
    {
        Ok(Locked {
            chronicle: Arc::try_clone(&self.chronicle)?,
            value: Arc::try_clone(&self.value)?,
        })
    }
}
