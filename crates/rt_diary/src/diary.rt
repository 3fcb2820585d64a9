ghost use Rattle.std.specs.Prelude.{◌≡◌, ◌<◌, ◌-◌, ◌^◌, ◌↔◌, [], ◌∷◌, ◌++◌, length, Some, IfOk, IsTrue};

use rt_front::{Blank, Chronicle, Front, Keeper, found};
use std::alloc::{AllocError, Global};
use std::marker::Model;

/// A list of what was done, in its order. Contracts see the list; the program never reads it.
#[derive(Drop)]
pub struct Diary<T> {
    chronicle: Chronicle<T>,
    keeper: Keeper<T>,
    front: Front<T>,
}

impl<T> Model for Diary<T> {
    ghost use Rattle.std.specs.Prelude.{List};
    ghost use Rattle.std.specs.Prelude.{map};
    ghost use Rattle.rt_diary.specs.IsDiary.{IsDiary};

    ghost Value = { List T };

    ghost view = { λ d. map (λ e. e.what) d.keeper.log };

    ghost invariant = { λ d. IsDiary d.chronicle d.keeper d.front };
}

impl<T: Drop> Diary<T> {
    /// A diary in which nothing stands yet.
    pub fn new(alloc: Global) -> Result<Diary<T>, AllocError>
        ensures { IfOk result (λ diary. diary ≡ []) }
    {
        let (chronicle, keeper, fronts) = found(alloc, Blank::new(alloc)?, 1)?;
        let Some(front) = only(fronts) else {
            return Err(AllocError);
        };
        Ok(Diary {
            chronicle,
            keeper,
            front,
        })
    }
}

impl<T> Diary<T> {
    /// Whether there is room for one more. The count of what was noted fits 64 bits.
    pub fn has_room(&self) -> bool
        ensures { IsTrue result ↔ (length self.now < 2 ^ 64 - 1) }
    {
        self.front.told() < u64::MAX
    }

    /// Notes what was done, at the end. Takes no memory.
    pub fn note(&mut self, what: &T)
        requires { length self.old < 2 ^ 64 - 1 }
        ensures { self.new ≡ self.old ++ what.now ∷ [] }
    {
        self.keeper.advance(&self.chronicle, &mut self.front, what);
    }
}

// The one item.
fn only<T: Drop>(items: Vec<T>) -> Option<T>
    ensures { (x : T) → items.items ≡ x ∷ [] → result ≡ Some x }
{
    let mut items = items;
    items.pop()
}
