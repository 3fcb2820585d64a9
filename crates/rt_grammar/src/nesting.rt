ghost use Rattle.std.specs.Prelude.{◌≡◌, IfOk};
ghost use Rattle.rt_grammar.specs.Nested.{with_condition, predicate_of};

use crate::nested::{all_of, any_of};
use crate::stack::Stack;
use rt_lists::Items;
use rt_model::Predicate;
use std::alloc::{AllocError, Global};

/// A predicate that is being read: OR joins conditions that AND joins of terms.
pub(crate) struct Level {
    /// How many parentheses and NOTs may still be open at once.
    pub(crate) room: u32,
    /// The parts of OR that have ended.
    pub(crate) conditions: Items<Predicate>,
    /// The terms so far of the part that hasn't.
    pub(crate) terms: Items<Predicate>,
}

/// A predicate within which a parenthesis is open.
#[derive(Drop)]
pub(crate) struct Enclosing {
    pub(crate) level: Level,
    /// How many NOTs stand before the parenthesis.
    pub(crate) nots: u32,
}

/// The predicates that are being read, one within another.
pub(crate) struct Nesting {
    pub(crate) level: Level,
    pub(crate) outer: Stack<Enclosing>,
}

// Written out: whoever drops a level or a nesting calls these, and its proof needs nothing of the fields.
impl Drop for Level {
    fn drop(self) {
        let Level {
            room: _,
            conditions: _,
            terms: _,
        } = self;
    }
}

impl Drop for Nesting {
    fn drop(self) {
        let Nesting { level: _, outer: _ } = self;
    }
}

impl Level {
    /// OR ends a condition.
    pub(crate) fn with_condition(self, alloc: Global) -> Result<Level, AllocError>
        ensures { IfOk result (λ later. later ≡ with_condition self) }
    {
        let Level {
            room,
            mut conditions,
            terms,
        } = self;
        conditions.push(all_of(terms))?;
        Ok(Level {
            room,
            conditions,
            terms: Items::new(alloc),
        })
    }

    /// The predicate that has been read at this level.
    pub(crate) fn into_predicate(self) -> Result<Predicate, AllocError>
        ensures { IfOk result (λ predicate. predicate ≡ predicate_of self) }
    {
        let Level {
            room: _,
            mut conditions,
            terms,
        } = self;
        conditions.push(all_of(terms))?;
        Ok(any_of(conditions))
    }
}

impl Nesting {
    /// The innermost predicate, and those around it.
    pub(crate) fn into_levels(self) -> (Level, Stack<Enclosing>)
        ensures { result ≡ (self.level, self.outer) }
    {
        let Nesting { level, outer } = self;
        (level, outer)
    }
}
