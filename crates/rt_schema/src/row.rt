use crate::Value;
use rt_lists::{Copied, Items};
use std::alloc::{AllocError, Global};

/// A row: one value for each column, in the order of the schema.
#[derive(Drop, PartialEq, Eq)]
pub struct Row {
    pub values: Items<Value>,
}

impl Copied for Row {
    fn copied(&self, alloc: Global) -> Result<Self, AllocError> {
        Ok(Row {
            values: self.values.copied(alloc)?,
        })
    }
}
