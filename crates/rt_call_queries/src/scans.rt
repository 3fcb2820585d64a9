ghost use Rattle.std.specs.Prelude.{◌≡◌, true, IfOk};
ghost use Rattle.rt_schema.specs.Schema.{IsSchema};
ghost use Rattle.rt_model.specs.Checked.{IsQuery};
ghost use Rattle.rt_segment.specs.Segment.{are_columns};

use crate::asked::Asked;
use rt_agg::Groups;
use rt_base::Offset;
use rt_call_schemas::Tables;
use rt_call_segments::{Consuming, HeldSegments};
use rt_call_words::{Answer, Stop, Words};
use rt_filter::passes;
use rt_lines::answer_text;
use rt_lists::Items;
use rt_model::Query;
use rt_mutable::MutableSegment;
use rt_scan::{scan_as, scan_below};
use rt_schema::{Row, Schema};
use rt_segment::Sealed;
use rt_sql::{SqlRefused, parse};
use std::alloc::Global;

/// `scan WAY`: the result rows of the last query, which later lines merge.
pub fn scan(
    alloc: Global,
    tables: &Tables,
    segments: &HeldSegments,
    asked: &mut Asked,
    words: &mut Words,
    answer: &mut Answer,
) -> Result<(), Stop> {
    let groups = scan_by(alloc, tables, segments, asked.query.as_str(), words)?;
    write_whole(alloc, &groups, answer)?;
    asked.keep(groups);
    Ok(())
}

// Adds the result rows, and looks whether there was room for them.
fn write_whole(alloc: Global, groups: &Groups, answer: &mut Answer) -> Result<(), Stop> {
    write_groups(alloc, groups, answer)?;
    answer.written()
}

/// `merge WAY`: the result rows of what was scanned since the query, and of this.
pub fn merge(
    alloc: Global,
    tables: &Tables,
    segments: &HeldSegments,
    asked: &mut Asked,
    words: &mut Words,
    answer: &mut Answer,
) -> Result<(), Stop> {
    let groups = scan_by(alloc, tables, segments, asked.query.as_str(), words)?;
    merge_into(alloc, &mut asked.groups, &groups, answer)
}

// Merges groups into those that were scanned, and adds the result rows.
fn merge_into(
    alloc: Global,
    scanned: &mut Option<Groups>,
    groups: &Groups,
    answer: &mut Answer,
) -> Result<(), Stop> {
    match scanned {
        Some(merged) => {
            merged.merge(alloc, groups)?;
            write_groups(alloc, merged, answer)
        }
        None => Err(Stop::Refused),
    }
}

// `file`, `as`, `below X` or `rows`
fn scan_by(
    alloc: Global,
    tables: &Tables,
    segments: &HeldSegments,
    text: &str,
    words: &mut Words,
) -> Result<Groups, Stop> {
    let way = words.word();
    if way == "below" {
        let offset = Offset(words.number());
        words.ended()?;
        return scan_rows(alloc, tables, segments, text, offset);
    }
    words.ended()?;
    match way {
        "file" => scan_file(alloc, tables, segments, text),
        "as" => scan_filled(alloc, tables, segments, text),
        "rows" => filter_rows(alloc, tables, segments, text),
        _ => Err(Stop::BadLine),
    }
}

// Adds the result rows, as JSON.
fn write_groups(alloc: Global, groups: &Groups, answer: &mut Answer) -> Result<(), Stop> {
    let found = rt_model::Answer {
        ranges: Items::new(alloc),
        missing: Items::new(alloc),
        rows: groups.finish(alloc)?,
    };
    let text = answer_text(alloc, &found)?;
    let rows = text.strip_prefix("{\"ranges\":[],\"missing\":[],\"rows\":");
    answer.add(rows.unwrap_or("").strip_suffix('}').unwrap_or(""));
    Ok(())
}

// The query of a text, over a schema.
fn query_over(alloc: Global, tables: &Tables, text: &str, schema: &Schema) -> Result<Query, Stop>
    requires { IsSchema schema.now }
    ensures { IfOk result (IsQuery schema.now) }
{
    match parse(alloc, text, schema, tables.table()) {
        Ok(query) => Ok(query),
        Err(SqlRefused::Memory) => Err(Stop::Memory),
        Err(_) => Err(Stop::Refused),
    }
}

fn scan_file(
    alloc: Global,
    tables: &Tables,
    segments: &HeldSegments,
    text: &str,
) -> Result<Groups, Stop> {
    let known = tables.schema()?;
    let query = query_over(alloc, tables, text, &known.schema)?;
    scan_if_fitting(alloc, &query, &known.schema, segments)
}

fn scan_if_fitting(
    alloc: Global,
    query: &Query,
    schema: &Schema,
    segments: &HeldSegments,
) -> Result<Groups, Stop>
    requires { IsQuery schema.now query.now }
{
    let sealed = segments.sealed()?;
    if !sealed.fits(schema) {
        return Err(Stop::Refused);
    }
    scan_fitting(alloc, query, schema, sealed)
}

#[tactic(auto, using(crate::proofs::Fitting::fits_sealed))]
fn scan_fitting(
    alloc: Global,
    query: &Query,
    schema: &Schema,
    sealed: &Sealed,
) -> Result<Groups, Stop>
    requires query { IsQuery schema.now query.now }
    requires columns { are_columns sealed.now.columns schema.now.columns ≡ true }
{
    Ok(rt_scan::scan(alloc, query, sealed)?)
}

fn scan_filled(
    alloc: Global,
    tables: &Tables,
    segments: &HeldSegments,
    text: &str,
) -> Result<Groups, Stop> {
    let known = tables.schema()?;
    let query = query_over(alloc, tables, text, &known.schema)?;
    scan_sealed_as(alloc, &query, &known.schema, segments)
}

fn scan_sealed_as(
    alloc: Global,
    query: &Query,
    schema: &Schema,
    segments: &HeldSegments,
) -> Result<Groups, Stop>
    requires { IsQuery schema.now query.now }
{
    Ok(scan_as(alloc, query, schema, segments.sealed()?)?)
}

fn scan_rows(
    alloc: Global,
    tables: &Tables,
    segments: &HeldSegments,
    text: &str,
    offset: Offset,
) -> Result<Groups, Stop> {
    let consuming = segments.consuming()?;
    let query = query_over(alloc, tables, text, &consuming.schema)?;
    scan_consuming(alloc, &query, consuming, offset)
}

#[tactic(auto, using(crate::proofs::Fitting::fits_consuming))]
fn scan_consuming(
    alloc: Global,
    query: &Query,
    consuming: &Consuming,
    offset: Offset,
) -> Result<Groups, Stop>
    requires { IsQuery consuming.now.schema query.now }
{
    Ok(scan_below(alloc, query, &consuming.segment, offset)?)
}

fn filter_rows(
    alloc: Global,
    tables: &Tables,
    segments: &HeldSegments,
    text: &str,
) -> Result<Groups, Stop> {
    let consuming = segments.consuming()?;
    let query = query_over(alloc, tables, text, &consuming.schema)?;
    add_rows(alloc, &consuming.segment, &query)
}

// Row by row.
fn add_rows(alloc: Global, segment: &MutableSegment, query: &Query) -> Result<Groups, Stop> {
    let mut groups = Groups::make(alloc, query)?;
    for number in 0..segment.len() {
        let row = segment.row(alloc, number)?;
        add_row(alloc, &row, query, &mut groups)?;
    }
    Ok(groups)
}

fn add_row(alloc: Global, row: &Row, query: &Query, groups: &mut Groups) -> Result<(), Stop> {
    if passes(&query.filter, row) {
        groups.add_row(alloc, row)?;
    }
    Ok(())
}

/// `skips`: whether the query can be answered without the sealed segment.
pub fn skips(
    alloc: Global,
    tables: &Tables,
    segments: &HeldSegments,
    asked: &Asked,
    words: &mut Words,
    answer: &mut Answer,
) -> Result<(), Stop> {
    words.ended()?;
    let known = tables.schema()?;
    let query = query_over(alloc, tables, asked.query.as_str(), &known.schema)?;
    skips_by(&query, segments, answer)
}

fn skips_by(query: &Query, segments: &HeldSegments, answer: &mut Answer) -> Result<(), Stop> {
    answer.truth(rt_scan::skips(query, segments.sealed()?));
    Ok(())
}
