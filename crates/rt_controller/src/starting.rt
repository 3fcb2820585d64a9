ghost use Rattle.std.specs.Prelude.{◌≡◌, ◌<◌, ◌^◌, IfOk};
ghost use Rattle.std.specs.Vec.{vec_len, vec_capacity};
ghost use Rattle.rt_controller.specs.Answers.{commit_stage, follows_by, leads_to, named_file};
ghost use Rattle.rt_controller.specs.Controller.{Controlling};

use crate::Handled;
use crate::answers::{replies, status_of};
use rt_base::Offset;
use rt_commit::{FoundVersions, Job, JobStage, Work};
use rt_lists::{Copied, Text};
use rt_model::{Key, Node, Reaction, ReplyStatus, Request, RequestKind, Seen, SeenMeta};
use std::alloc::{AllocError, Global};

/// What a commit job starts from: the write that the machine read, and the path that the CommitEnd names.
#[derive(Drop)]
pub struct NamedFile {
    pub read: Seen,
    pub path: Text,
}

/// The file that a CommitEnd names, and none of another request. Fails only where memory is refused.
pub(crate) fn named_file(
    alloc: Global,
    request: &Request,
    seen: &SeenMeta,
) -> Result<Option<NamedFile>, AllocError>
    ensures { IfOk result (λ file. file ≡ named_file request.now seen.now) }
{
    match &request.kind {
        RequestKind::CommitEnd { path } => {
            let meta = seen.meta.copied(alloc)?;
            let read = Seen {
                key: Key::Meta(request.partition, request.sequence),
                version: seen.version,
                node: Node::Meta(meta),
            };
            let path = path.copy(alloc)?;
            Ok(Some(NamedFile { read, path }))
        }
        RequestKind::Consumed(_) => Ok(None),
        RequestKind::Stopped => Ok(None),
        RequestKind::CommitStart => Ok(None),
        RequestKind::Upload { .. } => Ok(None),
        RequestKind::Extend { .. } => Ok(None),
    }
}

/// What a reaction leads to: a job from this stage on, or an answer.
pub(crate) fn leads_to(file: Option<NamedFile>, reaction: Reaction) -> Result<JobStage, ReplyStatus>
    ensures { result ≡ leads_to file reaction }
{
    match reaction {
        Reaction::Answer(said) => Err(status_of(said)),
        Reaction::StartCommit(end) => commit_stage(end, file),
        Reaction::StartOffline => Ok(JobStage::IdealRead {
            work: Work::Offline,
            found: FoundVersions::new(),
        }),
    }
}

fn commit_stage(end: Offset, file: Option<NamedFile>) -> Result<JobStage, ReplyStatus>
    ensures { result ≡ commit_stage end file }
{
    match file {
        Some(file) => Ok(JobStage::Check {
            read: file.read,
            end,
            path: file.path,
        }),
        None => Err(ReplyStatus::Hold),
    }
}

/// Starts a job, for which there is room, or answers.
pub(crate) fn follow(
    jobs: &mut Vec<Job>,
    started: &mut u64,
    request: &Request,
    next: Result<JobStage, ReplyStatus>,
) -> Handled
    requires room { vec_len jobs.old < vec_capacity jobs.old }
    requires few { started.old < 2 ^ 63 }
    ensures { (c : Controlling) → c.jobs ≡ jobs.old.items → c.started ≡ started.old
        → follows_by c request.now next
        ≡ record { controller = record c { jobs = jobs.new.items; started = started.new }; handled = result } }
{
    match next {
        Ok(stage) => {
            let number = *started;
            jobs.push_reserved(Job {
                number,
                asked: request.asked(),
                stage,
            });
            *started = number + 1;
            Handled::Job(number)
        }
        Err(status) => replies(request, status),
    }
}
