//! What a replica asks of a controller, and which of its calls are due.
ghost use Rattle.std.specs.Prelude.{◌≡◌, ◌<◌, ◌^◌, IfOk, IfErr, IsSome};
ghost use Rattle.rt_msgs.specs.Numbered.{upload_path};
ghost use Rattle.rt_consumer.specs.Consumer.{extends_in};
ghost use Rattle.rt_consumer.specs.Requests.{Requests, Extends, request_with, is_due, forced, builds_in, asks_now, size_in, kind_in, kind_at};

use crate::{Consumer, Phase, ReplicaRefused, Stage, Waited};
use rt_lists::Text;
use rt_model::{Request, RequestKind, RequestNumber};
use rt_msgs::Numbers;
use std::alloc::{AllocError, Global};

impl Consumer {
    /// The request that is due, with the next number, which is then waited for. Where it is refused, all is as before,
    /// and no number is drawn.
    pub fn next_request(
        &mut self,
        alloc: Global,
        numbers: &mut Numbers,
    ) -> Result<Request, ReplicaRefused>
        requires { numbers.old.made < 2 ^ 63 }
        ensures { Requests self.old self.new numbers.old numbers.new result }
    {
        let Some(kind) = self.phase.asks(alloc, &self.name, numbers.upcoming())? else {
            return Err(ReplicaRefused::NotDue);
        };
        let number = numbers.next();
        self.waited = Some(Waited::Step(number));
        Ok(self.request(number, kind))
    }

    /// The request for more time, in milliseconds, before the upload. Takes no memory; where it isn't due, all is as
    /// before, and no number is drawn.
    pub fn extend(&mut self, numbers: &mut Numbers, millis: u64) -> Result<Request, ReplicaRefused>
        requires { numbers.old.made < 2 ^ 63 }
        ensures { Extends self.old self.new numbers.old numbers.new millis result }
    {
        if !self.extend_due() {
            return Err(ReplicaRefused::NotDue);
        }
        let number = numbers.next();
        self.waited = Some(Waited::Extend(number));
        Ok(self.request(number, RequestKind::Extend { millis }))
    }

    /// A request at `cur`.
    fn request(&self, number: RequestNumber, kind: RequestKind) -> Request
        ensures { result ≡ request_with self.now number kind }
    {
        Request {
            number,
            partition: self.partition,
            sequence: self.sequence,
            offset: self.cur(),
            kind,
        }
    }

    /// Whether `force` is due. Takes no memory.
    pub fn force_due(&self) -> bool
        ensures { result ≡ is_due (forced self.now.phase) }
    {
        match &self.phase {
            Phase::Unsealed(unsealed) => match &unsealed.stage {
                Stage::InitialConsuming => unsealed.rows.start() < unsealed.rows.end(),
                _ => false,
            },
            _ => false,
        }
    }

    /// Whether `build` is due. Takes no memory.
    pub fn build_due(&self) -> bool
        ensures { result ≡ builds_in self.now.phase }
    {
        match &self.phase {
            Phase::Unsealed(unsealed) => unsealed.stage.builds(),
            _ => false,
        }
    }

    /// Whether `next_request` is due. Takes no memory.
    pub fn request_due(&self) -> bool
        ensures { result ≡ asks_now self.now.phase }
    {
        match &self.phase {
            Phase::Unsealed(unsealed) => matches!(
                unsealed.stage,
                Stage::Holding(_)
                    | Stage::Starting { .. }
                    | Stage::Uploading { .. }
                    | Stage::Ending { .. }
            ),
            Phase::Discarded(discarded) => discarded.stopped,
            _ => false,
        }
    }

    /// Whether `extend` is due. Takes no memory.
    pub fn extend_due(&self) -> bool
        ensures { result ≡ extends_in self.now.phase }
    {
        match &self.phase {
            Phase::Unsealed(unsealed) => {
                matches!(unsealed.stage, Stage::Building(_) | Stage::Starting { .. })
            }
            _ => false,
        }
    }

    /// The number of bytes of the upload that `next_request` would make now, else 0. Takes no memory.
    pub fn upload_bytes(&self) -> u64
        ensures { result ≡ size_in self.now.phase }
    {
        match &self.phase {
            Phase::Unsealed(unsealed) => match &unsealed.stage {
                Stage::Uploading { built, .. } => built.size(),
                _ => 0,
            },
            _ => 0,
        }
    }
}

impl Phase {
    /// What is to be asked, with this number, of a replica of a segment of this name.
    fn asks(
        &self,
        alloc: Global,
        name: &Text,
        number: RequestNumber,
    ) -> Result<Option<RequestKind>, AllocError>
        ensures kind { IfOk result (λ kind. kind ≡ kind_in name.now number self.now) }
        ensures due { IfErr result (λ e. IsSome (kind_in name.now number self.now)) }
    {
        match self {
            Phase::Unsealed(unsealed) => unsealed.stage.asks(alloc, name, number),
            Phase::Discarded(discarded) if discarded.stopped => Ok(Some(RequestKind::Stopped)),
            _ => Ok(None),
        }
    }
}

impl Stage {
    fn asks(
        &self,
        alloc: Global,
        name: &Text,
        number: RequestNumber,
    ) -> Result<Option<RequestKind>, AllocError>
        ensures kind { IfOk result (λ kind. kind ≡ kind_at name.now number self.now) }
        ensures due { IfErr result (λ e. IsSome (kind_at name.now number self.now)) }
    {
        match self {
            Stage::Holding(reason) => Ok(Some(RequestKind::Consumed(*reason))),
            Stage::Starting { .. } => Ok(Some(RequestKind::CommitStart)),
            Stage::Uploading { built, .. } => Ok(Some(RequestKind::Upload {
                path: path_of(alloc, name, number)?,
                bytes: built.bytes(alloc)?,
            })),
            Stage::Ending { path, .. } => Ok(Some(RequestKind::CommitEnd {
                path: path.copy(alloc)?,
            })),
            _ => Ok(None),
        }
    }
}

/// The path of an upload: the segment's name, and the number of the request.
fn path_of(alloc: Global, name: &Text, number: RequestNumber) -> Result<Text, AllocError>
    ensures { IfOk result (λ path. path ≡ upload_path name.now number) }
{
    let name = name.as_str();
    let instance = number.instance.0;
    let incarnation = number.incarnation;
    let count = number.count;
    let path = format!(in alloc; "{name}.{instance}.{incarnation}.{count}")?;
    Ok(Text::of(path))
}
