//! What becomes of a replica by the answer that it waits for.
ghost use Rattle.std.specs.Prelude.{◌≡◌};
ghost use Rattle.rt_consumer.specs.Consumer.{ends_at};
ghost use Rattle.rt_consumer.specs.Replies.{answered, answered_at, extended, extended_at, stop_answered, consumed, continued, uploaded, ended, keeps, commits, drops, is_processed, stays, goes};

use crate::{BuiltFile, CommittedFile, Discarded, Phase, Stage, Unsealed};
use rt_base::Offset;
use rt_model::{Reason, ReplyStatus, SeenMeta, Status};
use rt_mutable::MutableSegment;

/// What an answer makes of a replica: its state and stage stay, or it goes to another.
#[derive(Drop)]
pub enum Turn {
    Stays(Phase),
    Goes(Phase),
}

/// The answer to the request of a state or stage.
pub(crate) fn answered(phase: Phase, status: ReplyStatus) -> Turn
    ensures { result ≡ answered phase status }
{
    match phase {
        Phase::Unsealed(unsealed) => answered_at(unsealed.rows, unsealed.stage, status),
        Phase::Retained(kept) => Turn::Stays(Phase::Retained(kept)),
        Phase::Committed(kept) => Turn::Stays(Phase::Committed(kept)),
        Phase::Discarded(discarded) => stop_answered(discarded, &status),
    }
}

fn answered_at(rows: MutableSegment, stage: Stage, status: ReplyStatus) -> Turn
    ensures { result ≡ answered_at rows stage status }
{
    match stage {
        Stage::Holding(reason) => consumed(rows, reason, status),
        Stage::Starting { reason, built } => continued(rows, reason, built, status),
        Stage::Uploading { reason, built } => uploaded(rows, reason, built, status),
        Stage::Ending { reason, built, .. } => ended(rows, reason, built, status),
        stage => stays(rows, stage),
    }
}

/// The answer to a request for more time: anything but PROCESSED ends the commit.
pub(crate) fn extended(phase: Phase, status: ReplyStatus) -> Turn
    ensures { result ≡ extended phase status }
{
    match phase {
        Phase::Unsealed(unsealed) => extended_at(
            unsealed.rows,
            unsealed.stage,
            is_processed(&status),
        ),
        phase => Turn::Stays(phase),
    }
}

fn extended_at(rows: MutableSegment, stage: Stage, processed: bool) -> Turn
    ensures { result ≡ extended_at rows stage processed }
{
    match stage {
        Stage::Building(reason) if !processed => goes(rows, Stage::Holding(reason)),
        Stage::Starting { reason, .. } if !processed => goes(rows, Stage::Holding(reason)),
        stage => stays(rows, stage),
    }
}

/// The answer to Stopped.
fn stop_answered(discarded: Discarded, status: &ReplyStatus) -> Turn
    ensures { result ≡ stop_answered discarded status.now }
{
    if is_processed(status) {
        Turn::Stays(Phase::Discarded(Discarded {
            stopped: false,
            ..discarded
        }))
    } else {
        Turn::Stays(Phase::Discarded(discarded))
    }
}

/// The answer to Consumed.
fn consumed(rows: MutableSegment, reason: Reason, status: ReplyStatus) -> Turn
    ensures { result ≡ consumed rows reason status }
{
    let cur = rows.end();
    match status {
        ReplyStatus::CatchUp(target) => {
            if target > cur {
                goes(rows, Stage::CatchingUp { target, reason })
            } else {
                stays(rows, Stage::Holding(reason))
            }
        }
        ReplyStatus::Commit(offset) => {
            if offset == cur {
                goes(rows, Stage::Building(reason))
            } else {
                stays(rows, Stage::Holding(reason))
            }
        }
        ReplyStatus::Keep(seen) => {
            if ends_at(cur, &seen) {
                goes(rows, Stage::Retaining(seen))
            } else {
                stays(rows, Stage::Holding(reason))
            }
        }
        ReplyStatus::Discard => drops(&rows),
        _ => stays(rows, Stage::Holding(reason)),
    }
}

/// The answer to CommitStart.
fn continued(rows: MutableSegment, reason: Reason, built: BuiltFile, status: ReplyStatus) -> Turn
    ensures { result ≡ continued rows reason built status }
{
    match status {
        ReplyStatus::Keep(seen) => keeps(rows, reason, seen),
        ReplyStatus::Discard => drops(&rows),
        ReplyStatus::CommitContinue => goes(rows, Stage::Uploading { reason, built }),
        _ => goes(rows, Stage::Holding(reason)),
    }
}

/// The answer to Upload.
fn uploaded(rows: MutableSegment, reason: Reason, built: BuiltFile, status: ReplyStatus) -> Turn
    ensures { result ≡ uploaded rows reason built status }
{
    match status {
        ReplyStatus::UploadSuccess(path) => goes(
            rows,
            Stage::Ending {
                reason,
                built,
                path,
            },
        ),
        _ => goes(rows, Stage::Holding(reason)),
    }
}

/// The answer to CommitEnd.
fn ended(rows: MutableSegment, reason: Reason, built: BuiltFile, status: ReplyStatus) -> Turn
    ensures { result ≡ ended rows reason built status }
{
    match status {
        ReplyStatus::Keep(seen) => keeps(rows, reason, seen),
        ReplyStatus::Discard => drops(&rows),
        ReplyStatus::CommitSuccess(seen) => commits(rows, reason, built, seen),
        _ => goes(rows, Stage::Holding(reason)),
    }
}

/// KEEP to a committer: it retains what was committed up to `cur`.
fn keeps(rows: MutableSegment, reason: Reason, seen: SeenMeta) -> Turn
    ensures { result ≡ keeps rows reason seen }
{
    if ends_at(rows.end(), &seen) {
        goes(rows, Stage::Retaining(seen))
    } else {
        goes(rows, Stage::Holding(reason))
    }
}

/// COMMIT_SUCCESS: the built file is served, where the commit ends at `cur`.
fn commits(rows: MutableSegment, reason: Reason, built: BuiltFile, seen: SeenMeta) -> Turn
    ensures { result ≡ commits rows reason built seen }
{
    if ends_at(rows.end(), &seen) {
        Turn::Goes(Phase::Committed(CommittedFile {
            file: built.into_file(),
            done: seen,
        }))
    } else {
        goes(rows, Stage::Holding(reason))
    }
}

/// DISCARD: the rows are dropped.
fn drops(rows: &MutableSegment) -> Turn
    ensures { result ≡ drops rows.now }
{
    Turn::Goes(Phase::Discarded(Discarded {
        cur: rows.end(),
        stopped: false,
    }))
}

fn stays(rows: MutableSegment, stage: Stage) -> Turn
    ensures { result ≡ stays rows stage }
{
    Turn::Stays(Phase::Unsealed(Unsealed { rows, stage }))
}

fn goes(rows: MutableSegment, stage: Stage) -> Turn
    ensures { result ≡ goes rows stage }
{
    Turn::Goes(Phase::Unsealed(Unsealed { rows, stage }))
}

fn is_processed(status: &ReplyStatus) -> bool
    ensures { result ≡ is_processed status.now }
{
    matches!(status, ReplyStatus::Processed)
}

/// Whether metadata tells of a commit that ends at an offset.
pub(crate) fn ends_at(offset: Offset, seen: &SeenMeta) -> bool
    ensures { result ≡ ends_at offset seen.now }
{
    match &seen.meta.status {
        Status::Done(commit) => commit.end == offset,
        _ => false,
    }
}
