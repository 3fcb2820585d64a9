ghost use Rattle.std.specs.Prelude.{◌≡◌, IfOk};
ghost use Rattle.rt_meta.specs.Lives.{with_status, done_of, abandoned_of};

use rt_base::Moment;
use rt_model::{Commit, SegMeta, Status};
use std::alloc::{AllocError, Global};

/// The metadata of a segment that is committed at `now`; its name and its start stay. Fails only where memory is
/// refused.
pub fn done_of(
    alloc: Global,
    meta: &SegMeta,
    commit: Commit,
    now: Moment,
) -> Result<SegMeta, AllocError>
    ensures { IfOk result (λ done. done ≡ done_of meta.now commit now) }
{
    with_status(alloc, meta, Status::Done(commit), now)
}

/// The metadata of a segment that is given up at `now`; its name and its start stay. Fails only where memory is
/// refused.
pub fn abandoned_of(alloc: Global, meta: &SegMeta, now: Moment) -> Result<SegMeta, AllocError>
    ensures { IfOk result (λ abandoned. abandoned ≡ abandoned_of meta.now now) }
{
    with_status(alloc, meta, Status::Abandoned, now)
}

/// The metadata with another status, written at `now`.
fn with_status(
    alloc: Global,
    meta: &SegMeta,
    status: Status,
    now: Moment,
) -> Result<SegMeta, AllocError>
    ensures { IfOk result (λ next. next ≡ with_status meta.now status now) }
{
    Ok(SegMeta {
        name: meta.name.copy(alloc)?,
        start: meta.start,
        status,
        written: now,
    })
}
