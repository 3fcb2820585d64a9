ghost use Rattle.std.specs.Prelude.{◌≡◌, IfOk};

use crate::{ColumnAt, Item, OrderKey, Predicate};
use rt_lists::{Copied, Items};
use std::alloc::{AllocError, Global};

/// A query: what it selects, of which rows, in which groups and in which order.
#[derive(Drop)]
pub struct Query {
    pub items: Items<Item>,
    /// The condition behind WHERE; without one every row counts.
    pub filter: Option<Predicate>,
    /// The columns behind GROUP BY.
    pub groups: Items<ColumnAt>,
    pub order: Items<OrderKey>,
    /// How many result rows there are at most.
    pub limit: u32,
}

fn filter_copied(alloc: Global, filter: &Option<Predicate>) -> Result<Option<Predicate>, AllocError>
    ensures { IfOk result (λ copy. copy ≡ filter.now) }
{
    match filter {
        None => Ok(None),
        Some(predicate) => Ok(Some(predicate.copied(alloc)?)),
    }
}

impl Copied for Query {
    fn copied(&self, alloc: Global) -> Result<Self, AllocError> {
        Ok(Query {
            items: self.items.copied(alloc)?,
            filter: filter_copied(alloc, &self.filter)?,
            groups: self.groups.copied(alloc)?,
            order: self.order.copied(alloc)?,
            limit: self.limit,
        })
    }
}
