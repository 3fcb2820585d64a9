ghost use Rattle.std.specs.Prelude.{◌≡◌, [], true, OnOk};
ghost use Rattle.rt_ground.specs.Histories.{Registered, registered, Notes, Tells, AreOfCallers};

use crate::noted::Noted;
use rt_front::{Chronicle, Front, Keeper};
use std::alloc::{AllocError, Global};
use std::marker::Model;

/// For whom each entry of a history was added, beside the value that stores what was added. Contracts see it as the name
/// of the history, its entries, the number of fronts with which it was founded, and whether there is room for an entry
/// more.
#[derive(Drop)]
pub struct Register<T> {
    notes: Vec<Noted>,
    keeper: Keeper<T>,
}

impl<T> Model for Register<T> {
    ghost use Rattle.std.specs.Prelude.{◌≡◌, map, nat_lt, vec_len, vec_capacity};
    ghost use Rattle.rt_ground.specs.Histories.{Registered, registered, noted_of};

    ghost Value = { Registered T };

    ghost view = { λ r. registered r.keeper.chronicle r.keeper.log r.keeper.made
        (nat_lt (vec_len r.notes) (vec_capacity r.notes)) };

    ghost invariant = { λ r. r.notes.items ≡ map noted_of r.keeper.log };
}

impl<T> Register<T> {
    /// The register of an empty history.
    pub(crate) fn of(alloc: Global, keeper: Keeper<T>) -> Self
        requires { keeper.log ≡ [] }
        ensures name { result.chronicle ≡ keeper.chronicle }
        ensures log { result.log ≡ [] }
        ensures made { result.made ≡ keeper.made }
    {
        Register {
            notes: Vec::new(alloc),
            keeper,
        }
    }

    /// Makes room for an entry more.
    pub(crate) fn reserve(&mut self) -> Result<(), AllocError>
        ensures same { (self.new.chronicle ≡ self.old.chronicle) × (self.new.log ≡ self.old.log) }
        ensures made { self.new.made ≡ self.old.made }
        ensures room { OnOk result (self.new.room ≡ true) }
    {
        self.notes.reserve(1)
    }

    /// Adds an entry for a front, which has then seen the whole history.
    pub(crate) fn note(&mut self, chronicle: &Chronicle<T>, front: &mut Front<T>, what: &T)
        requires chronicle { (self.old.chronicle ≡ chronicle.now) × (front.old.chronicle ≡ chronicle.now) }
        requires room { self.old.room ≡ true }
        ensures same { (self.new.chronicle ≡ self.old.chronicle) × (self.new.made ≡ self.old.made) }
        ensures noted { Notes self.old.log self.new.log front.old front.new what.now }
    {
        let noted = Noted {
            front: front.number(),
            told: front.told(),
        };
        self.keeper.advance(chronicle, front, what);
        self.notes.push_reserved(noted);
    }

    /// Tells a front the whole history.
    pub(crate) fn tell(&mut self, chronicle: &Chronicle<T>, front: &mut Front<T>)
        requires { (self.old.chronicle ≡ chronicle.now) × (front.old.chronicle ≡ chronicle.now) }
        ensures same { (self.new.chronicle ≡ self.old.chronicle) × (self.new.room ≡ self.old.room) }
        ensures log { self.new.log ≡ self.old.log }
        ensures made { self.new.made ≡ self.old.made }
        ensures told { Tells self.old.log front.old front.new }
        ensures callers { AreOfCallers self.old.made self.old.log }
    {
        self.keeper.tell(chronicle, front);
    }
}
