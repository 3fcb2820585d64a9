ghost use Rattle.std.specs.Prelude.{◌≡◌, ◌≤◌, Some, None, IfSome, IfNone};
ghost use Rattle.rt_lines.specs.declared.line_reason.LineReason.TheVariants.{Schema as BadSchema, Table as BadTable};
ghost use Rattle.rt_lines.specs.Header.{
  Says,
  refused_by,
  schema_at,
  setup_at,
  setup_of,
  table_at,
  text_behind,
};

use crate::cluster::{Cluster, beyond, read_cluster};
use crate::parts::after_prefix;
use crate::schema_line::SchemaLine;
use crate::{LineReason, PlayFault, TableLines};
use rt_base::Moment;
use rt_base::limits::{MOST_CONTROLLERS, MOST_PARTITIONS, MOST_SERVERS};
use rt_model::Setup;
use rt_schema::{Schema, SchemaRefused, Table, read_schema, read_table};
use std::alloc::Global;

/// `schema TEXT`
pub(crate) fn schema(alloc: Global, number: u64, line: &[u8]) -> Result<SchemaLine<'_>, PlayFault>
    ensures { Says (schema_at (number, line.now)) result }
{
    let Some(text) = text_behind(b"schema ".as_slice(), line) else {
        return Err(bad_line(number));
    };
    match read_schema(alloc, text) {
        Ok(schema) => Ok(SchemaLine { schema, text }),
        Err(refused) => Err(schema_fault(number, refused)),
    }
}

/// `table TEXT`
pub(crate) fn table<'a>(
    alloc: Global,
    number: u64,
    line: &'a [u8],
    said: SchemaLine<'a>,
) -> Result<TableLines<'a>, PlayFault>
    ensures { Says (table_at said.entry (number, line.now)) result }
{
    let Some(text) = text_behind(b"table ".as_slice(), line) else {
        return Err(bad_line(number));
    };
    match read_table(alloc, text, &said.schema) {
        Ok(table) => Ok(TableLines {
            schema: said.schema,
            table,
            schema_text: said.text,
            table_text: text,
            line: number,
        }),
        Err(refused) => Err(table_fault(number, refused)),
    }
}

/// What a schema and a table make with the cluster of a line.
#[tactic(auto, using(crate::proofs::Clusters::few_nodes))]
pub(crate) fn setup(said: TableLines<'_>, number: u64, line: &[u8]) -> Result<Setup, PlayFault>
    ensures { Says (setup_at said.entry.schema said.entry.table (number, line.now)) result }
{
    let Some(cluster) = read_cluster(line) else {
        return Err(bad_line(number));
    };
    if let Some(which) = beyond(cluster, said.table.replication) {
        return Err(PlayFault::Limit(which));
    }
    Ok(setup_of(said.schema, said.table, cluster))
}

fn setup_of(schema: Schema, table: Table, cluster: Cluster) -> Setup
    requires { (cluster.servers ≤ MOST_SERVERS) × (cluster.controllers ≤ MOST_CONTROLLERS) × (cluster.partitions ≤ MOST_PARTITIONS) }
    ensures { result ≡ setup_of schema table cluster }
{
    Setup {
        schema,
        table,
        servers: cluster.servers as u32,
        controllers: cluster.controllers as u32,
        partitions: cluster.partitions as u32,
        start: Moment(cluster.start),
        grace: cluster.grace,
        retention: cluster.options.retention,
        format: cluster.options.format,
    }
}

// The text behind a line's first word, in UTF-8.
#[tactic(auto, using(crate::proofs::Headers::is_text, crate::proofs::Headers::is_no_text))]
fn text_behind<'a>(word: &[u8], line: &'a [u8]) -> Option<&'a str>
    ensures some { IfSome result (λ text. text_behind word.now line.now ≡ Some text.now) }
    ensures none { IfNone result (text_behind word.now line.now ≡ None) }
{
    let text = after_prefix(line, word)?;
    match str::from_utf8(text) {
        Ok(text) => Some(text),
        Err(_) => None,
    }
}

/// The refusal of a line that is missing or outside the grammar.
pub(crate) fn bad_line(line: u64) -> PlayFault
    ensures { result ≡ PlayFault.Refused line LineReason.BadLine }
{
    PlayFault::Refused {
        line,
        reason: LineReason::BadLine,
    }
}

fn schema_fault(line: u64, refused: SchemaRefused) -> PlayFault
    ensures { result ≡ refused_by BadSchema line refused }
{
    match refused.number() {
        Some(number) => PlayFault::Refused {
            line,
            reason: LineReason::Schema(number),
        },
        None => PlayFault::Memory,
    }
}

fn table_fault(line: u64, refused: SchemaRefused) -> PlayFault
    ensures { result ≡ refused_by BadTable line refused }
{
    match refused.number() {
        Some(number) => PlayFault::Refused {
            line,
            reason: LineReason::Table(number),
        },
        None => PlayFault::Memory,
    }
}
