ghost use Rattle.std.specs.Prelude.{◌≡◌, map, IfOk};
ghost use Rattle.rt_grammar.specs.Whole.{query_with};

use rt_lists::{Items, Text};
use rt_model::{ColumnAt, Item, OrderKey, Predicate, Query};
use std::alloc::{AllocError, Global};

/// An item, and the place in the text of its first byte.
#[derive(Drop)]
pub struct ItemAt {
    pub byte: u64,
    pub item: Item,
}

/// A name behind GROUP BY, and the place in the text of its first byte.
#[derive(Drop)]
pub struct GroupAt {
    pub byte: u64,
    pub column: ColumnAt,
}

/// A key behind ORDER BY, and the place in the text of its first byte.
#[derive(Drop)]
pub struct KeyAt {
    pub byte: u64,
    pub key: OrderKey,
}

/// The parts of a query, as far as they have been read.
pub struct Parts {
    pub items: Items<ItemAt>,
    /// The name behind FROM.
    pub table: Text,
    pub filter: Option<Predicate>,
    pub groups: Items<GroupAt>,
    pub order: Items<KeyAt>,
    pub limit: u32,
}

// Written out: whoever drops parts calls this, and its proof needs nothing of the fields.
impl Drop for Parts {
    fn drop(self) {
        let Parts {
            items: _,
            table: _,
            filter: _,
            groups: _,
            order: _,
            limit: _,
        } = self;
    }
}

impl Parts {
    /// The query of these parts.
    pub fn into_query(self, alloc: Global) -> Result<Query, AllocError>
        ensures { IfOk result (λ query. query ≡ query_with self) }
    {
        let Parts {
            items,
            table: _,
            filter,
            groups,
            order,
            limit,
        } = self;
        Ok(Query {
            items: items_of(alloc, items.into_vec())?,
            filter,
            groups: columns_of(alloc, groups.into_vec())?,
            order: keys_of(alloc, order.into_vec())?,
            limit,
        })
    }
}

fn items_of(alloc: Global, found: Vec<ItemAt>) -> Result<Items<Item>, AllocError>
    ensures { IfOk result (λ items. items ≡ map (λ i. i.item) found.items) }
{
    let mut items = Items::new(alloc);
    for found in found {
        items.push(found.item)?;
    }
    Ok(items)
}

fn columns_of(alloc: Global, found: Vec<GroupAt>) -> Result<Items<ColumnAt>, AllocError>
    ensures { IfOk result (λ columns. columns ≡ map (λ g. g.column) found.items) }
{
    let mut columns = Items::new(alloc);
    for found in found {
        columns.push(found.column)?;
    }
    Ok(columns)
}

fn keys_of(alloc: Global, found: Vec<KeyAt>) -> Result<Items<OrderKey>, AllocError>
    ensures { IfOk result (λ keys. keys ≡ map (λ k. k.key) found.items) }
{
    let mut keys = Items::new(alloc);
    for found in found {
        keys.push(found.key)?;
    }
    Ok(keys)
}
