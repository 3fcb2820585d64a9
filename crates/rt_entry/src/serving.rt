//! An entry serves pieces of a query's plan.
ghost use Rattle.std.specs.Prelude.{◌≡◌, IfOk};
ghost use Rattle.rt_scan.specs.Scanned.{FitsConsuming, FitsSealed, rows_before};
ghost use Rattle.rt_segment.specs.Segment.{rows_of};
ghost use Rattle.rt_entry.specs.Serving.{AnswersGroups, AnswersRows, FitsEntry, file_range, rows_range, serve_entry, serve_file, serve_rows};

use crate::{Entry, ServeRefused, ServedRows};
use rt_agg::Served;
use rt_base::{Offset, Range};
use rt_lists::Items;
use rt_model::{Piece, Query};
use rt_mutable::MutableSegment;
use rt_scan::{SummarizedSegment, scan_below};
use rt_schema::Row;
use rt_segment::Sealed;
use std::alloc::{AllocError, Global};

impl Entry {
    /// What is held of a piece: the range, and the groups of its rows that a query takes. NotServed where it isn't held,
    /// with the end up to which its segment is.
    #[tactic(auto, using(crate::proofs::Served::groups_by_rows, crate::proofs::Served::groups_by_file, crate::proofs::Served::entry_none, crate::proofs::Served::rows_fit, crate::proofs::Served::file_fits))]
    pub fn serve(&self, alloc: Global, piece: Piece, query: &Query) -> Result<Served, ServeRefused>
        requires { FitsEntry query.now self.now }
        ensures { AnswersGroups query.now (serve_entry piece self.now) result }
    {
        if let Some(rows) = self.held() {
            return serve_rows(alloc, piece, query, rows);
        }
        if let Some(file) = self.summarized() {
            return serve_file(alloc, piece, query, file);
        }
        Err(ServeRefused::NotServed { reached: None })
    }

    /// What is held of a piece: the range that [`Entry::serve`] gives, and its rows in order.
    #[tactic(auto, using(crate::proofs::Served::rows_by_rows, crate::proofs::Served::rows_by_file, crate::proofs::Served::entry_none))]
    pub fn rows(&self, alloc: Global, piece: Piece) -> Result<ServedRows, ServeRefused>
        ensures { AnswersRows (serve_entry piece self.now) result }
    {
        if let Some(rows) = self.held() {
            return copy_rows(alloc, piece, rows);
        }
        if let Some(file) = self.sealed() {
            return copy_file(alloc, piece, file);
        }
        Err(ServeRefused::NotServed { reached: None })
    }
}

/// The groups of the rows by column of a piece.
fn serve_rows(
    alloc: Global,
    piece: Piece,
    query: &Query,
    rows: &MutableSegment,
) -> Result<Served, ServeRefused>
    requires { FitsConsuming query.now rows.now }
    ensures { AnswersGroups query.now (serve_rows piece rows.now) result }
{
    let range = rows_range(piece, rows)?;
    let groups = scan_below(alloc, query, rows, range.end)?;
    Ok(Served { range, groups })
}

/// The groups of the sealed rows of a piece.
fn serve_file(
    alloc: Global,
    piece: Piece,
    query: &Query,
    file: &SummarizedSegment,
) -> Result<Served, ServeRefused>
    requires { FitsSealed query.now file.now }
    ensures { AnswersGroups query.now (serve_file piece file.now) result }
{
    let sealed = file.file();
    let range = file_range(piece, sealed)?;
    let groups = file.scan(alloc, query)?;
    Ok(Served { range, groups })
}

/// The rows by column of a piece.
fn copy_rows(alloc: Global, piece: Piece, rows: &MutableSegment) -> Result<ServedRows, ServeRefused>
    ensures { AnswersRows (serve_rows piece rows.now) result }
{
    let range = rows_range(piece, rows)?;
    let rows = rows_before(alloc, rows, range.end)?;
    Ok(ServedRows { range, rows })
}

/// The sealed rows of a piece.
fn copy_file(alloc: Global, piece: Piece, file: &Sealed) -> Result<ServedRows, ServeRefused>
    ensures { AnswersRows (serve_file piece file.now) result }
{
    let range = file_range(piece, file)?;
    let rows = rows_of(alloc, file)?;
    Ok(ServedRows { range, rows })
}

/// The range over which rows by column serve a piece: up to its end, where they reach it, or as far as they go.
fn rows_range(piece: Piece, rows: &MutableSegment) -> Result<Range, ServeRefused>
    ensures { result ≡ rows_range piece rows.now }
{
    let cur = rows.end();
    let end = piece.end.unwrap_or(cur);
    if end > cur || piece.start != rows.start() {
        return Err(ServeRefused::NotServed { reached: Some(cur) });
    }
    Ok(Range {
        start: piece.start,
        end,
    })
}

/// The range over which sealed rows serve a piece: whole, where the piece ends with them.
fn file_range(piece: Piece, file: &Sealed) -> Result<Range, ServeRefused>
    ensures { result ≡ file_range piece file.now }
{
    let held = file.range();
    let end = piece.end.unwrap_or(held.end);
    if end != held.end || piece.start != held.start {
        return Err(ServeRefused::NotServed {
            reached: Some(held.end),
        });
    }
    Ok(Range {
        start: piece.start,
        end,
    })
}

/// Copies of the rows of earlier offsets.
#[tactic(auto, using(crate::proofs::Copies::take_next, crate::proofs::Copies::before_within, crate::proofs::Copies::before_taken))]
fn rows_before(alloc: Global, rows: &MutableSegment, end: Offset) -> Result<Items<Row>, AllocError>
    ensures { IfOk result (λ copies. copies ≡ rows_before end rows.now) }
{
    let count = rows.rows_below(end);
    let mut copies = Items::new(alloc);
    for number in 0..count {
        copies.push(rows.row(alloc, number)?)?;
    }
    Ok(copies)
}

/// Copies of all sealed rows.
#[tactic(auto, using(crate::proofs::Copies::take_next))]
fn rows_of(alloc: Global, file: &Sealed) -> Result<Items<Row>, AllocError>
    ensures { IfOk result (λ copies. copies ≡ rows_of file.now) }
{
    let count = file.rows();
    let mut copies = Items::new(alloc);
    for number in 0..count {
        copies.push(file.row(alloc, number)?)?;
    }
    Ok(copies)
}
