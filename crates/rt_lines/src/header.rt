ghost use Rattle.std.specs.Prelude.{◌≡◌, ◌<◌, ◌^◌, IfOk, OnErr, OnOk, length};
ghost use Rattle.rt_model.specs.Setup.{IsSetup};
ghost use Rattle.rt_lines.specs.Header.{
  IsTableSaid,
  Reads,
  ReadsHeader,
  next_line,
  schema_at,
  setup_in,
  table_at,
  tables_of,
};

use crate::header_lines::{bad_line, schema, setup, table};
use crate::schema_line::SchemaLine;
use crate::{Lines, PlayFault, TableLines};
use rt_model::Setup;
use std::alloc::Global;

/// Reads the three header lines: the schema, the table and the cluster. The first of them that is
/// missing or outside the grammar, or whose text is refused or goes beyond a limit, ends the reading. A
/// line that is missing has the number after the last line. Where the header is refused, or memory runs
/// out, the lines are as they were.
pub fn read_header(alloc: Global, lines: &mut Lines<'_>) -> Result<Setup, PlayFault>
    ensures reads { ReadsHeader lines.old lines.new result }
    ensures taken { IfOk result IsSetup }
    ensures refused { OnErr result (lines.new ≡ lines.old) }
    ensures few { OnOk result (length lines.new.lines < 2 ^ 64) }
{
    let mut ahead = lines.again();
    let setup = read_lines(alloc, &mut ahead)?;
    *lines = ahead;
    Ok(setup)
}

/// Reads the first two header lines, the schema and the table, as `read_header` does. Where one of them is
/// refused, or memory runs out, the lines are as they were.
pub fn read_tables<'a>(alloc: Global, lines: &mut Lines<'a>) -> Result<TableLines<'a>, PlayFault>
    ensures reads { Reads (tables_of lines.old) lines.old lines.new result }
    ensures taken { IfOk result IsTableSaid }
    ensures refused { OnErr result (lines.new ≡ lines.old) }
    ensures few { OnOk result (length lines.new.lines < 2 ^ 64) }
{
    let mut ahead = lines.again();
    let said = read_two_lines(alloc, &mut ahead)?;
    *lines = ahead;
    Ok(said)
}

/// Reads the third header line, the cluster, behind those that said this, as `read_header` does. Where it is
/// refused the lines are as they were.
pub fn read_cluster_line(lines: &mut Lines<'_>, said: TableLines<'_>) -> Result<Setup, PlayFault>
    requires { IsTableSaid said }
    ensures reads { Reads (setup_in said.entry lines.old) lines.old lines.new result }
    ensures taken { IfOk result IsSetup }
    ensures refused { OnErr result (lines.new ≡ lines.old) }
    ensures few { OnOk result (length lines.new.lines < 2 ^ 64) }
{
    let mut ahead = lines.again();
    let setup = read_third_line(&mut ahead, said)?;
    *lines = ahead;
    Ok(setup)
}

fn read_lines(alloc: Global, lines: &mut Lines<'_>) -> Result<Setup, PlayFault>
    ensures reads { ReadsHeader lines.old lines.new result }
    ensures taken { IfOk result IsSetup }
    ensures few { length lines.new.lines < 2 ^ 64 }
{
    let said = read_two_lines(alloc, lines)?;
    read_third_line(lines, said)
}

fn read_two_lines<'a>(alloc: Global, lines: &mut Lines<'a>) -> Result<TableLines<'a>, PlayFault>
    ensures reads { Reads (tables_of lines.old) lines.old lines.new result }
    ensures taken { IfOk result IsTableSaid }
    ensures few { length lines.new.lines < 2 ^ 64 }
{
    let said = read_schema_line(alloc, lines)?;
    read_table_line(alloc, lines, said)
}

#[tactic(auto, using(crate::proofs::Headers::line_reads))]
fn read_schema_line<'a>(alloc: Global, lines: &mut Lines<'a>) -> Result<SchemaLine<'a>, PlayFault>
    ensures reads { Reads (next_line schema_at lines.old.after lines.old.lines) lines.old lines.new result }
    ensures few { length lines.new.lines < 2 ^ 64 }
{
    match lines.take() {
        Ok((number, line)) => schema(alloc, number, line),
        Err(number) => Err(bad_line(number)),
    }
}

#[tactic(auto, using(crate::proofs::Headers::line_reads))]
fn read_table_line<'a>(
    alloc: Global,
    lines: &mut Lines<'a>,
    said: SchemaLine<'a>,
) -> Result<TableLines<'a>, PlayFault>
    ensures reads { Reads (next_line (table_at said.entry) lines.old.after lines.old.lines) lines.old lines.new result }
    ensures few { length lines.new.lines < 2 ^ 64 }
{
    match lines.take() {
        Ok((number, line)) => table(alloc, number, line, said),
        Err(number) => Err(bad_line(number)),
    }
}

#[tactic(auto, using(crate::proofs::Headers::line_reads))]
fn read_third_line(lines: &mut Lines<'_>, said: TableLines<'_>) -> Result<Setup, PlayFault>
    requires { IsTableSaid said }
    ensures reads { Reads (setup_in said.entry lines.old) lines.old lines.new result }
    ensures taken { IfOk result IsSetup }
    ensures few { length lines.new.lines < 2 ^ 64 }
{
    match lines.take() {
        Ok((number, line)) => setup(said, number, line),
        Err(number) => Err(bad_line(number)),
    }
}
