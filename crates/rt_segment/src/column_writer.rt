//! A column of a file.
ghost use Rattle.std.specs.Prelude.{◌≡◌, ◌≤◌, ◌++◌, All, OnOk, length};
ghost use Rattle.std.specs.List.{flat_map};
ghost use Rattle.rt_segment.specs.Segment.{IsColumnOf};
ghost use Rattle.rt_segment.specs.Spelling.{kind_byte, column_bytes, column_head, packed_ids};

use crate::column_reader::has_extremes;
use crate::dictionary_writer::write_dictionary;
use crate::segment_column::SegmentColumn;
use crate::stored::Stored;
use rt_pack::{pack, width};
use rt_schema::Kind;
use std::alloc::{AllocError, Global};

/// Writes columns of so many rows.
pub(crate) fn write_columns(
    alloc: Global,
    format: u8,
    rows: u32,
    columns: &[SegmentColumn],
    out: &mut Vec<u8>,
) -> Result<(), AllocError>
    requires { All (IsColumnOf rows) columns.now }
    ensures { OnOk result (out.new.items ≡ out.old.items ++ flat_map (column_bytes format) columns.now) }
{
    for column in columns {
        write_column(alloc, format, rows, column, out)?;
    }
    Ok(())
}

fn write_column(
    alloc: Global,
    format: u8,
    rows: u32,
    column: &SegmentColumn,
    out: &mut Vec<u8>,
) -> Result<(), AllocError>
    requires { IsColumnOf rows column.now }
    ensures { OnOk result (out.new.items ≡ out.old.items ++ column_bytes format column.now) }
{
    let numbers = column.ids().len().saturating_mul(8);
    out.reserve(column.size().saturating_add(numbers))?;
    write_head(column, out)?;
    write_dictionary(column.dictionary(), has_extremes(format, rows), out)?;
    write_ids(alloc, column, out)?;
    column.write_postings(out)
}

// The name, the kind, the flag and the cardinality.
fn write_head(column: &SegmentColumn, out: &mut Vec<u8>) -> Result<(), AllocError>
    requires { length column.now.name ≤ 128 }
    ensures { OnOk result (out.new.items ≡ out.old.items ++ column_head column.now) }
{
    let name = column.name().as_bytes();
    out.extend_from_slice(&(name.len() as u16).to_be_bytes())?;
    out.extend_from_slice(name)?;
    out.push(kind_byte(column.kind()))?;
    column.is_indexed().write(out)?;
    out.extend_from_slice(&column.dictionary().len().to_be_bytes())?;
    Ok(())
}

fn kind_byte(kind: Kind) -> u8
    ensures { result ≡ kind_byte kind }
{
    match kind {
        Kind::Int => 1,
        Kind::Long => 2,
        Kind::Text => 3,
        Kind::Bool => 4,
        Kind::Time => 5,
    }
}

fn write_ids(alloc: Global, column: &SegmentColumn, out: &mut Vec<u8>) -> Result<(), AllocError>
    ensures { OnOk result (out.new.items ≡ out.old.items ++ packed_ids column.now) }
{
    let width = width(column.dictionary().len());
    let bytes = pack(alloc, column.ids(), width)?;
    out.extend_from_slice(&bytes)?;
    Ok(())
}
