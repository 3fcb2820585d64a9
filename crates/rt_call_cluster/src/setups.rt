ghost use Rattle.std.specs.Prelude.{◌≤◌, IsTrue};
ghost use Rattle.rt_model.specs.Setup.{IsSetup};
ghost use Rattle.rt_schema.specs.Schema.{IsSchema};
ghost use Rattle.rt_schema.specs.TableText.{IsTable};

use rt_base::Moment;
use rt_base::limits::{
    LAST_MOMENT, MOST_CONTROLLERS, MOST_PARTITIONS, MOST_REPLICATION, MOST_SERVERS,
};
use rt_call_words::{Stop, Words};
use rt_model::Setup;
use rt_schema::{Schema, SchemaRefused, Table, read_schema, read_table};
use std::alloc::Global;

/// The texts of a schema and of a table's settings.
#[derive(Clone, Copy)]
pub struct TableTexts<'a> {
    pub schema: &'a str,
    pub table: &'a str,
}

/// A table over its schema.
#[derive(Drop)]
pub struct KnownTable {
    pub schema: Schema,
    pub table: Table,
    ghost schema_read: { IsSchema schema },
    ghost table_read: { IsTable schema table },
}

/// A cluster within the limits.
#[derive(Drop)]
pub struct KnownSetup {
    pub setup: Setup,
    pub ghost within: { IsSetup setup },
}

impl KnownTable {
    /// The table of these texts.
    pub fn read(alloc: Global, texts: TableTexts) -> Result<KnownTable, Stop> {
        let schema = match read_schema(alloc, texts.schema) {
            Ok(schema) => schema,
            Err(SchemaRefused::Memory) => return Err(Stop::Memory),
            Err(_) => return Err(Stop::Refused),
        };
        match read_table(alloc, texts.table, &schema) {
            Ok(table) => Ok(KnownTable { schema, table }),
            Err(SchemaRefused::Memory) => Err(Stop::Memory),
            Err(_) => Err(Stop::Refused),
        }
    }
}

impl KnownSetup {
    /// `SERVERS CONTROLLERS PARTITIONS START`: a cluster of the table of these texts.
    pub fn read(alloc: Global, texts: TableTexts, words: &mut Words) -> Result<KnownSetup, Stop> {
        let numbers = Numbers::read(words)?;
        numbers.setup(KnownTable::read(alloc, texts)?, 2)
    }

    /// The least cluster of a table, whose replicas build in a format.
    pub fn of_table(known: KnownTable, format: u32) -> Result<KnownSetup, Stop> {
        let numbers = Numbers {
            servers: known.table.replication,
            controllers: 1,
            partitions: 1,
            start: 0,
        };
        match format {
            1 => numbers.setup(known, 1),
            2 => numbers.setup(known, 2),
            _ => Err(Stop::Refused),
        }
    }
}

/// The numbers of a cluster.
#[derive(Clone, Copy)]
struct Numbers {
    servers: u32,
    controllers: u32,
    partitions: u32,
    start: u64,
}

impl Numbers {
    /// `SERVERS CONTROLLERS PARTITIONS START`
    fn read(words: &mut Words) -> Result<Numbers, Stop> {
        let numbers = Numbers {
            servers: words.count(),
            controllers: words.count(),
            partitions: words.count(),
            start: words.number(),
        };
        words.ended()?;
        Ok(numbers)
    }

    /// A cluster of a table, whose replicas build in a format.
    fn setup(self, known: KnownTable, format: u8) -> Result<KnownSetup, Stop>
        requires first { 1 ≤ format }
        requires last { format ≤ 2 }
    {
        let replication = known.table.replication;
        if !self.are_within() || replication > MOST_REPLICATION || replication > self.servers {
            return Err(Stop::Refused);
        }
        let setup = Setup {
            schema: known.schema,
            table: known.table,
            servers: self.servers,
            controllers: self.controllers,
            partitions: self.partitions,
            start: Moment(self.start),
            grace: 0,
            retention: None,
            format,
        };
        Ok(KnownSetup { setup })
    }

    fn are_within(self) -> bool
        ensures servers { IsTrue result → (1 ≤ self.servers) × (self.servers ≤ MOST_SERVERS) }
        ensures controllers { IsTrue result → (1 ≤ self.controllers) × (self.controllers ≤ MOST_CONTROLLERS) }
        ensures partitions { IsTrue result → (1 ≤ self.partitions) × (self.partitions ≤ MOST_PARTITIONS) }
        ensures start { IsTrue result → self.start ≤ LAST_MOMENT }
    {
        let some = self.servers >= 1 && self.controllers >= 1 && self.partitions >= 1;
        some && self.servers <= MOST_SERVERS
            && self.controllers <= MOST_CONTROLLERS
            && self.partitions <= MOST_PARTITIONS
            && self.start <= LAST_MOMENT
    }
}
