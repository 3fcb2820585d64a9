ghost use Rattle.std.specs.Prelude.{IfOk};
ghost use Rattle.rt_model.specs.Setup.{IsSetup};

use rt_base::Moment;
use rt_model::Setup;
use rt_schema::{read_schema, read_table};
use std::alloc::{AllocError, Global};

const SCHEMA: &str =
    "{\"schemaName\":\"t\",\"metricFieldSpecs\":[{\"name\":\"v\",\"dataType\":\"LONG\"}]}";

const TABLE: &str =
    "{\"tableName\":\"t\",\"tableType\":\"REALTIME\",\"segmentsConfig\":{\"replication\":1}}";

/// A cluster of one server, one controller and one partition.
pub fn smallest(alloc: Global) -> Result<Setup, AllocError>
    ensures { IfOk result IsSetup }
{
    let Ok(schema) = read_schema(alloc, SCHEMA) else {
        return Err(AllocError);
    };
    let Ok(mut table) = read_table(alloc, TABLE, &schema) else {
        return Err(AllocError);
    };
    table.replication = 1;
    Ok(Setup {
        schema,
        table,
        servers: 1,
        controllers: 1,
        partitions: 1,
        start: Moment(0),
        grace: 0,
        retention: None,
        format: 2,
    })
}
