//! Packing ids, and reading them.
ghost use Rattle.std.specs.Prelude.{◌≡◌, ℕ, ◌+◌, ◌*◌, ◌^◌, ◌<◌, ◌≤◌, ◌↔◌, length, slice_index, All, IfOk};
ghost use Rattle.rt_pack.specs.Packed.{bytes_for, packed, unpacked, id_at, spare_bits};

use crate::bit_reader::{BitReader, number_in};
use crate::bit_writer::BitWriter;
use std::alloc::{AllocError, Global};

/// The ids, `width` bits each, one after another, the most significant bit first; the spare bits of the last byte are 0.
pub fn pack(alloc: Global, ids: &[u32], width: u32) -> Result<Vec<u8>, AllocError>
    requires narrow { width ≤ 32 }
    requires few { length ids.now < 2 ^ 32 }
    requires fit { All (λ id. id < 2 ^ width) ids.now }
    ensures value { IfOk result (λ bytes. bytes.items ≡ packed width ids.now) }
    ensures byte_count { IfOk result (λ bytes. length bytes.items ≡ bytes_for width (length ids.now)) }
    ensures spare { IfOk result (λ bytes. All (λ bit. bit ≡ 0) (spare_bits width (length ids.now) bytes.items)) }
    ensures unpacks { IfOk result (λ bytes. unpacked width (length ids.now) bytes.items ≡ ids.now) }

    // Each row reads back as the id that was packed.
    ensures reads { IfOk result (λ bytes. (row : ℕ) → row < length ids.now → id_at width bytes.items row ≡ slice_index ids.now row) }
{
    let bits = ids.len() as u64 * u64::from(width);
    let mut writer = BitWriter::with_capacity(alloc, bits.div_ceil(8) as usize)?;
    for id in ids {
        writer.push(*id, width)?;
    }
    writer.finish()
}

/// The id of a row in packed bytes.
pub fn get(bytes: &[u8], width: u32, row: u32) -> u32
    requires narrow { width ≤ 32 }
    requires there { (row + 1) * width ≤ 8 * length bytes.now }
    ensures { result ≡ id_at width bytes.now row }
{
    let start = u64::from(row) * u64::from(width);
    let end = start + u64::from(width);
    let last = end.div_ceil(8);
    let window = number_in(&bytes[(start / 8) as usize..last as usize]);
    ((window >> (last * 8 - end)) & ((1 << width) - 1)) as u32
}

/// The ids of the first `rows` rows in packed bytes.
pub fn unpack(alloc: Global, bytes: &[u8], width: u32, rows: u32) -> Result<Vec<u32>, AllocError>
    requires narrow { width ≤ 32 }
    requires there { rows * width ≤ 8 * length bytes.now }
    ensures value { IfOk result (λ ids. ids.items ≡ unpacked width rows bytes.now) }
    ensures row_count { IfOk result (λ ids. length ids.items ≡ rows) }
    ensures fit { IfOk result (λ ids. All (λ id. id < 2 ^ width) ids.items) }

    // Bytes of the right length are those of their ids exactly where the spare bits are 0.
    ensures packs { IfOk result (λ ids. length bytes.now ≡ bytes_for width rows → ((packed width ids.items ≡ bytes.now) ↔ All (λ bit. bit ≡ 0) (spare_bits width rows bytes.now))) }
{
    let mut ids = Vec::with_capacity(alloc, rows as usize)?;
    let mut reader = BitReader::new(bytes);
    for _row in 0..rows {
        ids.push(reader.take(width))?;
    }
    Ok(ids)
}
