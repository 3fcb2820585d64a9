ghost use Rattle.std.specs.Prelude.{◌≡◌, [], ◌∷◌, MatchOption};

use std::alloc::Global;
use std::marker::Model;
use std::vec::IntoIter;

/// Items that are handed out in their order. Contracts see those that are left.
#[derive(Drop)]
pub(crate) struct Stock<T> {
    left: IntoIter<T, Global>,
}

impl<T> Model for Stock<T> {
    ghost use Rattle.std.specs.Prelude.{◌≡◌, List, length};
    ghost use Rattle.std.specs.Vec.Iter.{into_iter_items, into_iter_len};

    ghost Value = { List T };

    ghost view = { λ s. into_iter_items s.left };

    ghost invariant = { λ s. into_iter_len s.left ≡ length (into_iter_items s.left) };
}

impl<T: Drop> Stock<T> {
    /// All of these are left.
    pub(crate) fn of(items: Vec<T>) -> Stock<T>
        ensures { result ≡ items.items }
    {
        Stock {
            left: items.into_iter(),
        }
    }

    /// The next one.
    pub(crate) fn next(&mut self) -> Option<T>
        ensures { MatchOption result (self.old ≡ []) (λ item. self.old ≡ item ∷ self.new) }
    {
        self.left.next()
    }
}
