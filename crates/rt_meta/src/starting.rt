ghost use Rattle.std.specs.Prelude.{◌≡◌, ◌≤◌, Ok, IfOk};
ghost use Rattle.rt_names.specs.Minute.{minute_text};
ghost use Rattle.rt_names.specs.Name.{name_of, IsRead};
ghost use Rattle.rt_names.specs.Table.{IsTableName};
ghost use Rattle.rt_meta.specs.Lives.{first_of};

use rt_base::limits::LAST_MOMENT;
use rt_base::{Moment, Offset, Partition, Sequence};
use rt_lists::Text;
use rt_model::{SegMeta, Status};
use rt_names::{SegmentName, minute_of};
use std::alloc::{AllocError, Global};

/// The metadata of a segment that is new at `now`: in progress from the offset `start`. Its name is made of the
/// table's, of its place and of the minute of `now`, and is one that `SegmentName::read` takes. The table is one that
/// can have its name, and `now` no later than the last moment. Fails only where memory is refused.
pub fn first(
    alloc: Global,
    table: &str,
    partition: Partition,
    sequence: Sequence,
    start: Offset,
    now: Moment,
) -> Result<SegMeta, AllocError>
    requires named { IsTableName table.now }
    requires moment { now.0 ≤ LAST_MOMENT }
    ensures first { IfOk result (λ meta. meta ≡ first_of table.now partition sequence start now) }
    ensures read { IfOk result
        (λ meta. IsRead meta.name (Ok (name_of table.now partition.0 sequence.0 (minute_text now.0)))) }
{
    let name = SegmentName {
        table: Text::copied_from(alloc, table)?,
        partition: partition.0,
        sequence: sequence.0,
        minute: minute_of(now.0),
    };
    Ok(SegMeta {
        name: name.format(alloc)?,
        start,
        status: Status::InProgress,
        written: now,
    })
}
