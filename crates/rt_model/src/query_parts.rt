use rt_lists::{Copied, Text};
use std::alloc::{AllocError, Global};

/// A column that a query names: its name, and its place in the schema.
#[derive(Drop, PartialEq, Eq)]
pub struct ColumnAt {
    pub name: Text,
    pub place: u32,
}

/// How a column is compared with a literal.
#[derive(Clone, Copy, Debug, PartialEq, Eq)]
pub enum Comparison {
    Equal,
    NotEqual,
    Less,
    AtMost,
    Greater,
    AtLeast,
}

/// A literal of a query.
#[derive(Drop, PartialEq, Eq)]
pub enum Literal {
    Int(i64),
    Text(Text),
    Bool(bool),
}

/// What a query makes of the rows of a group.
#[derive(Drop, PartialEq, Eq)]
pub enum Aggregate {
    Count,
    Sum(ColumnAt),
    Min(ColumnAt),
    Max(ColumnAt),
}

/// An item that a query selects.
#[derive(Drop, PartialEq, Eq)]
pub enum Item {
    Column(ColumnAt),
    Aggregate(Aggregate),
}

/// A key that a query orders its result rows by.
#[derive(Drop, PartialEq, Eq)]
pub struct OrderKey {
    pub item: Item,
    pub descending: bool,
}

impl Copied for ColumnAt {
    fn copied(&self, alloc: Global) -> Result<Self, AllocError> {
        Ok(ColumnAt {
            name: self.name.copy(alloc)?,
            place: self.place,
        })
    }
}

impl Copied for Literal {
    fn copied(&self, alloc: Global) -> Result<Self, AllocError> {
        match self {
            Literal::Int(number) => Ok(Literal::Int(*number)),
            Literal::Text(text) => Ok(Literal::Text(text.copy(alloc)?)),
            Literal::Bool(truth) => Ok(Literal::Bool(*truth)),
        }
    }
}

impl Copied for Aggregate {
    fn copied(&self, alloc: Global) -> Result<Self, AllocError> {
        match self {
            Aggregate::Count => Ok(Aggregate::Count),
            Aggregate::Sum(column) => Ok(Aggregate::Sum(column.copied(alloc)?)),
            Aggregate::Min(column) => Ok(Aggregate::Min(column.copied(alloc)?)),
            Aggregate::Max(column) => Ok(Aggregate::Max(column.copied(alloc)?)),
        }
    }
}

impl Copied for Item {
    fn copied(&self, alloc: Global) -> Result<Self, AllocError> {
        match self {
            Item::Column(column) => Ok(Item::Column(column.copied(alloc)?)),
            Item::Aggregate(aggregate) => Ok(Item::Aggregate(aggregate.copied(alloc)?)),
        }
    }
}

impl Copied for OrderKey {
    fn copied(&self, alloc: Global) -> Result<Self, AllocError> {
        Ok(OrderKey {
            item: self.item.copied(alloc)?,
            descending: self.descending,
        })
    }
}
