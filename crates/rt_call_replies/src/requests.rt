//! Words of a replica's requests.
use rt_base::Offset;
use rt_call_cluster::reason_in;
use rt_call_words::{Stop, Words};
use rt_lists::{Bytes, Text};
use rt_model::{Request, RequestKind, RequestNumber};
use std::alloc::Global;

/// `sK P/Q REQUEST`: the first request of an instance, as reports name one, with the bytes of an upload behind its path.
pub(crate) fn request_in(alloc: Global, words: &mut Words) -> Result<Request, Stop> {
    let instance = words.instance_until(' ');
    let segment = words.segment_until(' ');
    let name = words.word();
    let offset = Offset(words.number());
    let kind = kind_in(alloc, name, words)?;
    words.ended()?;
    Ok(Request {
        number: RequestNumber {
            instance,
            incarnation: 0,
            count: 0,
        },
        partition: segment.partition,
        sequence: segment.sequence,
        offset,
        kind,
    })
}

// What stands behind the offset.
fn kind_in(alloc: Global, name: &str, words: &mut Words) -> Result<RequestKind, Stop> {
    match name {
        "consumed" => Ok(RequestKind::Consumed(reason_in(words.word())?)),
        "stopped" => Ok(RequestKind::Stopped),
        "commitStart" => Ok(RequestKind::CommitStart),
        "upload" => Ok(RequestKind::Upload {
            path: Text::copied_from(alloc, words.word())?,
            bytes: Bytes::of(words.bytes(alloc)),
        }),
        "commitEnd" => Ok(RequestKind::CommitEnd {
            path: Text::copied_from(alloc, words.word())?,
        }),
        "extend" => Ok(RequestKind::Extend {
            millis: words.number(),
        }),
        _ => Err(Stop::BadLine),
    }
}
