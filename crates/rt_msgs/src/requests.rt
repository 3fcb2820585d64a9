ghost use Rattle.std.specs.Prelude.{◌≡◌, IfOk};
ghost use Rattle.rt_msgs.specs.RequestText.{request_text, reason_text};

use rt_lists::Text;
use rt_model::{Reason, Request, RequestKind};
use std::alloc::{AllocError, Global};

/// A request as reports name it: what it asks and the sender's offset, then the reason, the path or the
/// milliseconds that it carries. Fails only where memory is refused.
pub fn request_text(alloc: Global, request: &Request) -> Result<Text, AllocError>
    ensures { IfOk result (λ text. text ≡ request_text request.now) }
{
    let offset = request.offset.0;
    let text = match &request.kind {
        RequestKind::Consumed(reason) => {
            let reason = reason_text(*reason);
            format!(in alloc; "consumed {offset} {reason}")?
        }
        RequestKind::Stopped => format!(in alloc; "stopped {offset}")?,
        RequestKind::CommitStart => format!(in alloc; "commitStart {offset}")?,
        RequestKind::Upload { path, bytes: _ } => {
            let path = path.as_str();
            format!(in alloc; "upload {offset} {path}")?
        }
        RequestKind::CommitEnd { path } => {
            let path = path.as_str();
            format!(in alloc; "commitEnd {offset} {path}")?
        }
        RequestKind::Extend { millis } => format!(in alloc; "extend {offset} {millis}")?,
    };
    Ok(Text::of(text))
}

/// Why a replica stopped to consume, as reports name it.
fn reason_text(reason: Reason) -> &'static str
    ensures { result.now ≡ reason_text reason }
{
    match reason {
        Reason::RowLimit => "rowLimit",
        Reason::TimeLimit => "timeLimit",
        Reason::Force => "force",
    }
}
