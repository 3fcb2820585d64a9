use crate::Column;
use rt_lists::{Items, Text};

/// A table's columns, in the order of its schema text.
#[derive(Drop, PartialEq, Eq)]
pub struct Schema {
    pub name: Text,
    pub columns: Items<Column>,
}
