ghost use Rattle.std.specs.Prelude.{◌≡◌, ◌<◌, ◌≤◌, ◌%◌, [], false, IfOk};
ghost use Rattle.rt_base.specs.declared.limits.TheConstants.{MOST_PARTITIONS};
ghost use Rattle.rt_macros.specs.Doing.{Does};
ghost use Rattle.rt_play.specs.Generating.{ProducesRow, ProducesRows, next_number, row_of_top, row_text};

use crate::generating::Generated;
use itoa::Buffer;
use rt_base::Partition;
use rt_lists::Bytes;
use rt_macros::produce;
use rt_world::{Refusal, World};
use std::alloc::{AllocError, Global};
use std::mem;

/// Has the rows of a generated run come to the partitions in turn; the last number of the generator.
#[tactic(auto, using(rt_macros::proofs::Doing::leads_itself))]
pub(crate) fn produce_rows(
    alloc: Global,
    world: &mut World,
    asked: Generated,
) -> Result<u64, Refusal>
    requires unspent { world.old.spent ≡ false }
    requires some { 1 ≤ asked.partitions }
    requires few { asked.partitions ≤ MOST_PARTITIONS }
    ensures { Does (ProducesRows asked) world.old.state world.new result }
{
    let mut spare = Bytes::new(alloc);
    let mut x = asked.seed;
    let mut at = 0;
    while at < asked.rows {
        match produce_row(alloc, world, asked.partitions, at, x, &mut spare) {
            Ok(next) => x = next,
            Err(refusal) => return Err(refusal),
        }
        at += 1;
    }
    Ok(x)
}

// Has the row of the next number come to its partition. The row is written into spare memory, which is given back.
#[tactic(auto, using(rt_macros::proofs::Doing::does_then, rt_macros::proofs::Doing::does_refused, rt_macros::proofs::Doing::does_told))]
fn produce_row(
    alloc: Global,
    world: &mut World,
    partitions: u64,
    at: u64,
    x: u64,
    spare: &mut Bytes,
) -> Result<u64, Refusal>
    requires unspent { world.old.spent ≡ false }
    requires some { 1 ≤ partitions }
    requires few { partitions ≤ MOST_PARTITIONS }
    ensures { Does (ProducesRow partitions at x) world.old.state world.new result }
{
    let next = next_number(x);
    let message = row_text(alloc, next, spare)?;
    produce(alloc, world, partition_of(at, partitions), &message)?;
    *spare = message;
    Ok(next)
}

// The partition of a row's place.
fn partition_of(at: u64, partitions: u64) -> Partition
    requires some { 1 ≤ partitions }
    requires few { partitions ≤ MOST_PARTITIONS }
    ensures { result ≡ record { 0 = at % partitions } }
{
    Partition((at % partitions) as u32)
}

// The next number of the generator.
fn next_number(x: u64) -> u64
    ensures { result ≡ next_number x }
{
    x.wrapping_mul(6_364_136_223_846_793_005)
        .wrapping_add(1_442_695_040_888_963_407)
}

// The row of a number, in spare memory.
fn row_text(alloc: Global, x: u64, spare: &mut Bytes) -> Result<Bytes, AllocError>
    ensures { IfOk result (λ text. text ≡ row_text x) }
{
    let mut text = mem::replace(spare, Bytes::new(alloc)).into_vec();
    text.clear();
    row_of_top(x / 8_589_934_592, text)
}

// Writes the row of a number's upper bits: the last four choose the key, and those above them the value.
fn row_of_top(top: u64, mut text: Vec<u8>) -> Result<Bytes, AllocError>
    requires { text.items ≡ [] }
    ensures { IfOk result (λ text. text ≡ row_of_top top) }
{
    let mut digits = Buffer::new();
    text.extend_from_slice(b"{\"k\":\"k")?;
    text.extend_from_slice(digits.format(top % 16).as_bytes())?;
    text.extend_from_slice(b"\",\"v\":")?;
    text.extend_from_slice(digits.format(top / 16 % 1000).as_bytes())?;
    text.push(b'}')?;
    Ok(Bytes::of(text))
}
