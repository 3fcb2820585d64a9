ghost use Rattle.std.specs.Prelude.{◌↔◌, ◌*◌, ◌<◌, ◌≤◌, ◌^◌, All, IsTrue, length};

use rt_call_words::{Answer, Stop, Words};
use std::alloc::Global;

/// `width COUNT`: the bits of an id.
pub fn width(words: &mut Words, answer: &mut Answer) -> Result<(), Stop> {
    let count = words.count();
    words.ended()?;
    answer.count(rt_pack::width(count));
    Ok(())
}

/// `pack WIDTH IDS`: the bytes.
pub fn pack(alloc: Global, words: &mut Words, answer: &mut Answer) -> Result<(), Stop> {
    let width = words.count();
    let ids = words.counts(alloc);
    words.ended()?;
    if width > 32 || ids.len() >= 4_294_967_296 || !are_narrow(ids.as_slice(), width) {
        return Err(Stop::Refused);
    }
    let bytes = rt_pack::pack(alloc, ids.as_slice(), width)?;
    answer.bytes(alloc, bytes.as_slice());
    Ok(())
}

// Whether each id takes at most so many bits.
fn are_narrow(ids: &[u32], width: u32) -> bool
    requires { width ≤ 32 }
    ensures { IsTrue result ↔ All (λ id. id < 2 ^ width) ids.now }
{
    ids.iter().all(|id| u64::from(*id) < 1u64 << width)
}

/// `get WIDTH ROW BYTES`: the id of a row.
pub fn get(alloc: Global, words: &mut Words, answer: &mut Answer) -> Result<(), Stop> {
    let width = words.count();
    let row = words.count();
    let bytes = words.bytes(alloc);
    words.ended()?;
    if width > 32 || row == 4_294_967_295 || !has_ids(bytes.as_slice(), width, row + 1) {
        return Err(Stop::Refused);
    }
    answer.count(rt_pack::get(bytes.as_slice(), width, row));
    Ok(())
}

/// `unpack WIDTH ROWS BYTES`: the ids of all rows.
pub fn unpack(alloc: Global, words: &mut Words, answer: &mut Answer) -> Result<(), Stop> {
    let width = words.count();
    let rows = words.count();
    let bytes = words.bytes(alloc);
    words.ended()?;
    if width > 32 || !has_ids(bytes.as_slice(), width, rows) {
        return Err(Stop::Refused);
    }
    let ids = rt_pack::unpack(alloc, bytes.as_slice(), width, rows)?;
    answer.counts(ids.as_slice());
    Ok(())
}

// Whether the bytes have the ids of so many rows.
fn has_ids(bytes: &[u8], width: u32, rows: u32) -> bool
    requires { width ≤ 32 }
    ensures { IsTrue result ↔ (rows * width ≤ 8 * length bytes.now) }
{
    let bits = u64::from(rows) * u64::from(width);
    bits.div_ceil(8) <= bytes.len() as u64
}
