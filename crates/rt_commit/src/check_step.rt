ghost use Rattle.std.specs.Prelude.{◌≡◌, Some, IfOk};
ghost use Rattle.rt_base.specs.declared.numbers.Moment.{Moment};
ghost use Rattle.rt_store.specs.Meaning.{Meaning};
ghost use Rattle.rt_past.specs.Files.{header_in};
ghost use Rattle.rt_commit.specs.declared.job.JobStage.TheVariants as stage;
ghost use Rattle.rt_commit.specs.Assignment.{Assigned};
ghost use Rattle.rt_commit.specs.Job.{after_get, bad, checked, is_wanted, wanted};
ghost use Rattle.rt_commit.specs.Steps.{StageSteps, Checks, Checked};

use crate::job::JobStage;
use crate::stepped::{Stepped, ended, failed, went};
use rt_base::{Header, Offset, Range};
use rt_deep::{DeepRefused, DeepStore};
use rt_lists::{Bytes, Text};
use rt_model::{Asked, Commit, FailCause, ReplyStatus, Seen, StepName, StepOutcome};
use rt_segment::{SegmentRefused, decode};
use rt_znodes::start_of;
use std::alloc::{AllocError, Global};

/// Reads the uploaded file, and compares its header.
#[tactic(auto, using(crate::proofs::RunningOut::get_ran_out))]
pub(crate) fn check<D: DeepStore>(
    alloc: Global,
    asked: Asked,
    read: Seen,
    end: Offset,
    path: Text,
    deep: &mut D,
) -> (JobStage, Result<Stepped, AllocError>)
    ensures { (s : Meaning) (a : Assigned) (now : Moment)
        → StageSteps s s (D.meaning deep.old) (D.meaning deep.new) a asked now (stage.Check read end path) result.0 result.1 }
{
    let answer = deep.get(alloc, path.as_str());
    after_get(alloc, asked, read, end, path, answer)
}

fn after_get(
    alloc: Global,
    asked: Asked,
    read: Seen,
    end: Offset,
    path: Text,
    answer: Result<Bytes, DeepRefused>,
) -> (JobStage, Result<Stepped, AllocError>)
    ensures { Checks answer (stage.Check read end path) (after_get asked read end path answer) result.0 result.1 }
{
    match answer {
        Ok(bytes) => match header_of(alloc, bytes.as_slice()) {
            Ok(found) => checked(asked, read, end, path, found),
            Err(refused) => (JobStage::Check { read, end, path }, Err(refused)),
        },
        Err(DeepRefused::Absent) => (JobStage::Ended, Ok(bad(asked, &read, end, None))),
        Err(DeepRefused::OtherBytes { .. }) => (JobStage::Ended, Ok(failed(StepName::Check))),
        Err(DeepRefused::Failed) => (JobStage::Ended, Ok(failed(StepName::Check))),
        Err(DeepRefused::Memory) => (JobStage::Check { read, end, path }, Err(AllocError)),
    }
}

/// The header of bytes that are a segment's file. Fails only where memory is refused.
fn header_of(alloc: Global, bytes: &[u8]) -> Result<Option<Header>, AllocError>
    ensures { IfOk result (λ header. header ≡ header_in bytes.now) }
{
    match decode(alloc, bytes) {
        Ok(sealed) => Ok(Some(sealed.header(alloc)?)),
        Err(SegmentRefused::Memory) => Err(AllocError),
        Err(SegmentRefused::Truncated) => Ok(None),
        Err(SegmentRefused::Magic) => Ok(None),
        Err(SegmentRefused::NotCanonical { .. }) => Ok(None),
        Err(SegmentRefused::Digest) => Ok(None),
        Err(SegmentRefused::Limit) => Ok(None),
    }
}

/// The file's header is to be the segment's.
fn checked(
    asked: Asked,
    read: Seen,
    end: Offset,
    path: Text,
    found: Option<Header>,
) -> (JobStage, Result<Stepped, AllocError>)
    ensures { Checked (checked asked read end path found) result.0 result.1 }
{
    match found {
        Some(header) if is_wanted(asked, start_of(&read.node), end, &header) => {
            let digest = header.digest;
            let commit = Commit {
                end,
                path,
                digest,
                rows: header.rows,
            };
            (
                JobStage::Done { read, commit },
                Ok(went(StepName::Check, StepOutcome::Fine)),
            )
        }
        _ => (JobStage::Ended, Ok(bad(asked, &read, end, found))),
    }
}

/// Whether a header is that of the job's segment, up to its end.
fn is_wanted(asked: Asked, start: Offset, end: Offset, header: &Header) -> bool
    ensures { result ≡ is_wanted asked start end header.now }
{
    header.partition == asked.partition
        && header.sequence == asked.sequence
        && header.range.start == start
        && header.range.end == end
}

/// The step that ends the job for a file that isn't the segment's.
fn bad(asked: Asked, read: &Seen, end: Offset, found: Option<Header>) -> Stepped
    ensures { Some (record { stage = stage.Ended; did = result }) ≡ bad asked read.now end found }
{
    let wanted = wanted(asked, start_of(&read.node), end, found);
    ended(
        StepName::Check,
        StepOutcome::Bad,
        ReplyStatus::Failed(FailCause::BadUpload { wanted, found }),
    )
}

/// The header that the job wants; rows and digest are those that were found.
fn wanted(asked: Asked, start: Offset, end: Offset, found: Option<Header>) -> Header
    ensures { result ≡ wanted asked start end found }
{
    let range = Range { start, end };
    match found {
        Some(header) => Header {
            partition: asked.partition,
            sequence: asked.sequence,
            range,
            ..header
        },
        None => Header {
            partition: asked.partition,
            sequence: asked.sequence,
            range,
            rows: 0,
            digest: [0; 32],
        },
    }
}
