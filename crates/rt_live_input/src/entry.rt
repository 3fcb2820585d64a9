ghost use Rattle.std.specs.Prelude.{◌≡◌, Some, None, IfSome, IfNone};
ghost use Rattle.rt_lines.specs.Header.{Says};
ghost use Rattle.rt_live_input.specs.Entries.{entry_at, placed_row, query_at, row_at, row_parts};
ghost use Rattle.rt_schema.specs.Schema.{IsSchema};

use rt_base::limits::{LAST_NUMBER, LONGEST_MESSAGE};
use rt_base::{Partition, Which};
use rt_ground::Appended;
use rt_lines::{LineReason, PlayFault, after_prefix, number_up_to, part_at};
use rt_model::{Query, Setup};
use rt_script::{QueryText, read_query};
use rt_stream::Message;
use std::alloc::Global;

/// What a line behind the header gives.
#[derive(Drop)]
pub(crate) enum Entry {
    /// A message that comes to the stream.
    Row(Appended),
    /// A query that is asked of the broker.
    Query(Query),
}

/// What a line gives, `row P TEXT` or `query TEXT`.
pub(crate) fn read_entry(
    alloc: Global,
    setup: &Setup,
    number: u64,
    line: &[u8],
) -> Result<Entry, PlayFault>
    requires { IsSchema setup.now.schema }
    ensures { Says (entry_at setup.now (number, line.now)) result }
{
    if let Some(text) = after_prefix(line, b"row ".as_slice()) {
        return row(alloc, setup, number, text);
    }
    if let Some(text) = after_prefix(line, b"query ".as_slice()) {
        return query(alloc, setup, number, text);
    }
    Err(refused(number, LineReason::BadLine))
}

// `P TEXT`
fn row(alloc: Global, setup: &Setup, number: u64, text: &[u8]) -> Result<Entry, PlayFault>
    ensures { Says (row_at setup.now number text.now) result }
{
    let Some((partition, message)) = row_parts(text) else {
        return Err(refused(number, LineReason::BadLine));
    };
    placed_row(alloc, setup.partitions, number, partition, message)
}

// A message of a partition, where there is such a one and the message isn't too long.
fn placed_row(
    alloc: Global,
    partitions: u32,
    number: u64,
    partition: u32,
    message: &[u8],
) -> Result<Entry, PlayFault>
    ensures { Says (placed_row partitions number (partition, message.now)) result }
{
    if partition >= partitions {
        return Err(refused(number, LineReason::NoSuchNode));
    }
    if message.len() > LONGEST_MESSAGE {
        return Err(PlayFault::Limit(Which::Message));
    }
    let message = Message::copied_from(alloc, message)?;
    Ok(Entry::Row(Appended {
        partition: Partition(partition),
        message,
    }))
}

// A partition's number, and what follows the space behind it.
fn row_parts(text: &[u8]) -> Option<(u32, &[u8])>
    ensures some { IfSome result (λ parts. row_parts text.now ≡ Some (parts.0, parts.1.now)) }
    ensures none { IfNone result (row_parts text.now ≡ None) }
{
    let (word, message) = part_at(text, b' ')?;
    let partition = number_up_to(u64::from(LAST_NUMBER), word)?;
    Some((partition as u32, message))
}

// The query of a text.
fn query(alloc: Global, setup: &Setup, number: u64, text: &[u8]) -> Result<Entry, PlayFault>
    requires { IsSchema setup.now.schema }
    ensures { Says (query_at setup.now number text.now) result }
{
    match read_query(alloc, &setup.schema, &setup.table.name, text)? {
        Some(QueryText::Query(query)) => Ok(Entry::Query(query)),
        Some(QueryText::Refused(why)) => Err(refused(number, LineReason::Query(why))),
        None => Err(refused(number, LineReason::BadLine)),
    }
}

fn refused(line: u64, reason: LineReason) -> PlayFault
    ensures { result ≡ PlayFault.Refused line reason }
{
    PlayFault::Refused { line, reason }
}
