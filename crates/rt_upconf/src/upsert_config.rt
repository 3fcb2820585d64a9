use rt_lists::{Items, Text};

/// How a table takes one row of each key as its latest.
#[derive(Drop, PartialEq, Eq)]
pub struct UpsertConfig {
    /// The names of the columns whose values are a row's key, in the order of `primaryKeyColumns`.
    pub keys: Items<Text>,
    /// The name of the column by which the rows of one key are compared.
    pub compare: Text,
}
