//! The ids of a column, and which values they leave unused.
ghost use Rattle.std.specs.Prelude.{◌≡◌, ◌<◌, ◌≤◌, ◌+◌, ◌*◌, ◌-◌, ◌^◌, ℕ, All, IfOk, OnOk, Contains, length, drop, true, false, slice_index_or};
ghost use Rattle.rt_pack.specs.Bits.{all_bits};
ghost use Rattle.rt_pack.specs.Packed.{bytes_for};
ghost use Rattle.rt_segment.specs.Cursor.{Gives, Answers};
ghost use Rattle.rt_segment.specs.Reading.{ids_at, ids_in, first_past, are_clear, has_id, first_unused, without};

use crate::cursor::Cursor;
use crate::dictionary_reader::read_dictionary;
use crate::segment_refused::SegmentRefused;
use rt_pack::{get, unpack, width};
use rt_schema::Kind;
use std::alloc::{AllocError, Global};

/// The ids of so many rows, each below the cardinality.
#[tactic(auto, unfolding(crate::specs::Reading::ids_at))]
pub(crate) fn read_ids(
    alloc: Global,
    rows: u32,
    cardinality: u32,
    cursor: &mut Cursor<'_>,
) -> Result<Vec<u32>, SegmentRefused>
    requires { rows ≤ 1000000 }
    ensures read { Gives (λ ids. ids.items) result cursor.new (ids_at rows cardinality cursor.old) }
    ensures rows { IfOk result (λ ids. length ids.items ≡ rows) }
    ensures known { IfOk result (λ ids. All (λ id. id < cardinality) ids.items) }
{
    let place = cursor.place();
    let width = width(cardinality);
    let bits = rows * width;
    let bytes = cursor.bytes(bits.div_ceil(8) as usize)?;
    check_ids(alloc, width, cardinality, rows, place, bytes)
}

// The ids in bytes that begin at a place of the file.
#[tactic(auto, using(crate::proofs::Ids::none_past))]
fn check_ids(
    alloc: Global,
    width: u32,
    cardinality: u32,
    rows: u32,
    place: u64,
    bytes: &[u8],
) -> Result<Vec<u32>, SegmentRefused>
    requires narrow { width ≤ 32 }
    requires few { rows ≤ 1000000 }
    requires whole { length bytes.now ≡ bytes_for width rows }
    requires within { place + length bytes.now < 2 ^ 64 }
    ensures read { Answers (λ ids. ids.items) result (ids_in width cardinality rows place bytes.now) }
    ensures rows { IfOk result (λ ids. length ids.items ≡ rows) }
    ensures known { IfOk result (λ ids. All (λ id. id < cardinality) ids.items) }
{
    let ids = unpack(alloc, bytes, width, rows)?;
    if let Some(row) = past(&ids, cardinality) {
        return Err(SegmentRefused::NotCanonical {
            byte: place + u64::from(row) * u64::from(width) / 8,
        });
    }
    if !is_clear(bytes, rows * width) {
        return Err(SegmentRefused::NotCanonical {
            byte: place + bytes.len() as u64 - 1,
        });
    }
    Ok(ids)
}

// The first row whose id isn't below the cardinality.
#[tactic(auto, using(crate::proofs::Ids::past_more, crate::proofs::Ids::past_end))]
fn past(ids: &[u32], cardinality: u32) -> Option<u32>
    requires { length ids.now < 2 ^ 32 }
    ensures { result ≡ first_past cardinality 0 ids.now }
{
    for (row, id) in ids.iter().enumerate() {
        if *id >= cardinality {
            return Some(row as u32);
        }
    }
    None
}

// Whether the bits from `start` on are 0.
#[tactic(auto, using(crate::proofs::Ids::clear_more, crate::proofs::Ids::clear_end))]
fn is_clear(bytes: &[u8], start: u32) -> bool
    requires start { start ≤ 8 * length bytes.now }
    requires few { 8 * length bytes.now < 2 ^ 32 }
    ensures { result ≡ are_clear (drop start (all_bits 8 bytes.now)) }
{
    for bit in start..8 * bytes.len() as u32 {
        if get(bytes, 1, bit) != 0 {
            return false;
        }
    }
    true
}

/// Refuses a dictionary, which begins where the cursor stands, with a value that no id names.
#[tactic(auto, using(crate::proofs::Ids::all_used), unfolding(crate::specs::Reading::dictionary_at))]
pub(crate) fn check_used(
    alloc: Global,
    ids: &[u32],
    kind: Kind,
    cardinality: u32,
    values: &mut Cursor<'_>,
) -> Result<(), SegmentRefused>
    requires { All (λ id. id < cardinality) ids.now }
    ensures read { Answers (λ u. u) result (without (first_unused cardinality 0 ids.now) kind values.old) }
    ensures used { OnOk result ((id : ℕ) → id < cardinality → Contains ids.now id) }
{
    match unused(alloc, ids, cardinality)? {
        None => Ok(()),
        Some(id) => {
            read_dictionary(alloc, kind, false, id, values)?;
            Err(values.breach())
        }
    }
}

// The first of so many values that no id names.
fn unused(alloc: Global, ids: &[u32], cardinality: u32) -> Result<Option<u32>, AllocError>
    requires { All (λ id. id < cardinality) ids.now }
    ensures { IfOk result (λ id. id ≡ first_unused cardinality 0 ids.now) }
{
    let mut used = vec![in alloc; false; cardinality as usize]?;
    mark(ids, &mut used);
    Ok(unmarked(ids, &used))
}

// Marks the values that ids name.
#[tactic(auto, using(crate::proofs::Ids::has_more))]
fn mark(ids: &[u32], used: &mut [bool])
    requires known { All (λ id. id < length used.old) ids.now }
    requires none { (id : ℕ) → id < length used.old → slice_index_or used.old id false ≡ false }
    ensures { (id : ℕ) → id < length used.new → slice_index_or used.new id false ≡ has_id id ids.now }
{
    for id in ids {
        used[*id as usize] = true;
    }
}

// The first value that isn't marked.
#[tactic(auto, using(crate::proofs::Ids::unused_more, crate::proofs::Ids::unused_end))]
fn unmarked(ids: &[u32], used: &[bool]) -> Option<u32>
    requires few { length used.now < 2 ^ 32 }
    requires marks { (id : ℕ) → id < length used.now → slice_index_or used.now id false ≡ has_id id ids.now }
    ensures { result ≡ first_unused (length used.now) 0 ids.now }
{
    for (id, named) in used.iter().enumerate() {
        if !*named {
            return Some(id as u32);
        }
    }
    None
}
