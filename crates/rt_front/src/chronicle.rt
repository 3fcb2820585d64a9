use crate::rule::{Law, View};
use atomic_table::Table;
use std::alloc::Global;
use std::marker::Model;

/// What keeper and fronts of one history share. Contracts see it as its name.
#[derive(Drop)]
pub struct Chronicle<T> {
    pub(crate) table: Table<T, View<T>, (), Law, Global>,
}

impl<T> Model for Chronicle<T> {
    ghost use Rattle.std.specs.Prelude.{◌≡◌};
    ghost use Rattle.atomic_table.specs.Seated.{TableId};

    ghost Value = { TableId };

    ghost view = { λ c. c.table.shared.table_id };

    ghost invariant = { λ c. c.table.shared.table_id.words ≡ 1 };
}
