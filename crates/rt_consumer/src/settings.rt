ghost use Rattle.std.specs.Prelude.{◌≡◌, IfOk};
ghost use Rattle.rt_consumer.specs.Consumer.{settings_of};

use rt_lists::{Copied, Items, Text};
use rt_model::Setup;
use rt_schema::Schema;
use std::alloc::{AllocError, Global};

/// What a replica needs of its cluster's setup.
#[derive(Drop, PartialEq, Eq)]
pub struct Settings {
    pub schema: Schema,
    /// The names of the indexed columns.
    pub indexed: Items<Text>,
    /// The row limit.
    pub rows: u32,
    /// The time limit, in milliseconds.
    pub millis: u64,
    /// The format of the file that it builds, 1 or 2.
    pub format: u8,
}

impl Settings {
    /// Those of a setup.
    pub fn of(alloc: Global, setup: &Setup) -> Result<Settings, AllocError>
        ensures { IfOk result (λ settings. settings ≡ settings_of setup.now) }
    {
        Ok(Settings {
            schema: setup.schema.copied(alloc)?,
            indexed: setup.table.indexed.copied(alloc)?,
            rows: setup.table.rows,
            millis: setup.table.millis,
            format: setup.format,
        })
    }
}
