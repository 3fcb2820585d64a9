ghost use Rattle.std.specs.Prelude.{◌≡◌, ◌<◌, ◌^◌, IfOk, IfSome, OnOk, length};
ghost use Rattle.rt_desk.specs.IsDesk.{IsDesk};
ghost use Rattle.rt_hybrid.specs.Table.{start_of};
ghost use Rattle.rt_lines.specs.Header.{IsTableSaid, Reads, Says};
ghost use Rattle.rt_lines.specs.declared.line_reason.LineReason.TheVariants.{Upsert};
ghost use Rattle.rt_lines.specs.Header.{numbered_fault};
ghost use Rattle.rt_model.specs.Setup.{IsSetup};
ghost use Rattle.rt_play.specs.Beginning.{beginning_of, desk_of, hybrid_by};
ghost use Rattle.rt_schema.specs.Schema.{IsSchema};
ghost use Rattle.rt_upconf.specs.Refused.{number_of};

use rt_desk::Desk;
use rt_hybrid::{Hybrid, HybridRefused};
use rt_lines::{LineReason, Lines, PlayFault, TableLines, read_cluster_line, read_tables};
use rt_lists::Text;
use rt_model::Setup;
use rt_schema::Schema;
use rt_upconf::{UpsertRefused, read_time_column, read_upsert};
use std::alloc::{AllocError, Global};

/// What a script begins with.
#[derive(Drop)]
pub(crate) struct Beginning {
    pub(crate) setup: Setup,
    pub(crate) desk: Desk,
}

/// Reads the header of a script. Upsert settings are refused at the table line, before any fault of the cluster line.
pub(crate) fn read_beginning(alloc: Global, lines: &mut Lines<'_>) -> Result<Beginning, PlayFault>
    ensures reads { Reads (beginning_of lines.old) lines.old lines.new result }
    ensures setup { IfOk result (λ beginning. IsSetup beginning.setup) }
    ensures desk { IfOk result (λ beginning. IsDesk beginning.setup.schema beginning.desk) }
    ensures few { OnOk result (length lines.new.lines < 2 ^ 64) }
{
    let said = match read_tables(alloc, lines) {
        Ok(said) => said,
        Err(fault) => return Err(fault),
    };
    let desk = match read_desk(alloc, &said) {
        Ok(desk) => desk,
        Err(fault) => return Err(fault),
    };
    match read_cluster_line(lines, said) {
        Ok(setup) => Ok(Beginning { setup, desk }),
        Err(fault) => Err(fault),
    }
}

// The desk of a script whose first two lines said this.
fn read_desk(alloc: Global, said: &TableLines<'_>) -> Result<Desk, PlayFault>
    requires { IsTableSaid said.now }
    ensures says { Says (desk_of said.now) result }
    ensures desk { IfOk result (λ desk. IsDesk said.now.schema desk) }
{
    let upsert = match read_upsert(alloc, said.schema_text(), said.table_text(), said.schema()) {
        Ok(upsert) => upsert,
        Err(refused) => return Err(upsert_fault(said.line(), refused)),
    };
    let time = read_time_column(alloc, said.table_text())?;
    let hybrid = hybrid_table(alloc, said.schema(), time)?;
    Ok(Desk::make(alloc, upsert, hybrid))
}

// The hybrid table of the settings' time column, where it fits.
fn hybrid_table(
    alloc: Global,
    schema: &Schema,
    time: Option<Text>,
) -> Result<Option<Hybrid>, AllocError>
    requires { IsSchema schema.now }
    ensures by_time { IfOk result (λ table. table ≡ hybrid_by schema.now time) }
    ensures schema { IfOk result (λ table. IfSome table (λ t. t.schema ≡ schema.now)) }
{
    match time {
        Some(name) => make_hybrid(alloc, schema, name.as_str()),
        None => Ok(None),
    }
}

#[tactic(auto, using(crate::proofs::HybridTables::made_is))]
fn make_hybrid(alloc: Global, schema: &Schema, name: &str) -> Result<Option<Hybrid>, AllocError>
    requires { IsSchema schema.now }
    ensures by_name { IfOk result (λ table. table ≡ start_of schema.now name.now) }
    ensures schema { IfOk result (λ table. IfSome table (λ t. t.schema ≡ schema.now)) }
{
    match Hybrid::make(alloc, schema, name) {
        Ok(table) => Ok(Some(table)),
        Err(HybridRefused::NoTime) => Ok(None),
        Err(HybridRefused::NotRows) => Ok(None),
        Err(HybridRefused::Memory) => Err(AllocError),
    }
}

fn upsert_fault(line: u64, refused: UpsertRefused) -> PlayFault
    ensures { result ≡ numbered_fault Upsert line (number_of refused) }
{
    match refused.number() {
        Some(number) => PlayFault::Refused {
            line,
            reason: LineReason::Upsert(number),
        },
        None => PlayFault::Memory,
    }
}
