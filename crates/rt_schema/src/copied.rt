use crate::{Column, Schema, Table};
use rt_lists::Copied;
use std::alloc::{AllocError, Global};

impl Copied for Column {
    fn copied(&self, alloc: Global) -> Result<Self, AllocError> {
        Ok(Column {
            name: self.name.copy(alloc)?,
            kind: self.kind,
            role: self.role,
        })
    }
}

impl Copied for Schema {
    fn copied(&self, alloc: Global) -> Result<Self, AllocError> {
        Ok(Schema {
            name: self.name.copy(alloc)?,
            columns: self.columns.copied(alloc)?,
        })
    }
}

impl Copied for Table {
    fn copied(&self, alloc: Global) -> Result<Self, AllocError> {
        Ok(Table {
            name: self.name.copy(alloc)?,
            replication: self.replication,
            indexed: self.indexed.copied(alloc)?,
            rows: self.rows,
            millis: self.millis,
        })
    }
}
