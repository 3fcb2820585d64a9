//! Words of a segment's commit.
ghost use Rattle.std.specs.Prelude.{IfOk};
ghost use Rattle.rt_model.specs.Metadata.{IsDoneStatus};

use crate::listed_words::write_segment;
use rt_base::{Header, Moment, Offset};
use rt_call_words::{Answer, Segment, Stop, Words};
use rt_lists::Text;
use rt_model::{Commit, SegMeta, Status};
use std::alloc::Global;

/// A segment with the metadata of its commit.
#[derive(Drop)]
pub(crate) struct Committed {
    pub(crate) segment: Segment,
    pub(crate) meta: SegMeta,
}

impl Committed {
    /// `P/Q START END PATH DIGEST ROWS`
    pub(crate) fn read(alloc: Global, words: &mut Words) -> Result<Committed, Stop>
        ensures { IfOk result (λ committed. IsDoneStatus committed.meta.status) }
    {
        let segment = words.segment_until(' ');
        let start = Offset(words.number());
        let commit = commit_in(alloc, words)?;
        Ok(Committed {
            segment,
            meta: SegMeta {
                name: Text::new(alloc),
                start,
                status: Status::Done(commit),
                written: Moment(0),
            },
        })
    }
}

// `END PATH DIGEST ROWS`
fn commit_in(alloc: Global, words: &mut Words) -> Result<Commit, Stop> {
    let end = Offset(words.number());
    let path = words.word();
    let digest = words.bytes(alloc);
    let rows = words.count();
    words.ended()?;
    let Ok(digest) = <[u8; 32]>::try_from(digest.as_slice()) else {
        return Err(Stop::BadLine);
    };
    Ok(Commit {
        end,
        path: Text::copied_from(alloc, path)?,
        digest,
        rows,
    })
}

/// Adds the header that was wanted, and the one that was found, with `-` in place of none.
pub fn write_headers(alloc: Global, wanted: Header, found: Option<Header>, answer: &mut Answer) {
    write_header(alloc, wanted, answer);
    answer.add(", ");
    match found {
        Some(found) => write_header(alloc, found, answer),
        None => answer.add("-"),
    }
}

// `P/Q START END DIGEST ROWS`
fn write_header(alloc: Global, header: Header, answer: &mut Answer) {
    write_segment(header.partition, header.sequence, answer);
    answer.add(" ");
    answer.number(header.range.start.0);
    answer.add(" ");
    answer.number(header.range.end.0);
    answer.add(" ");
    answer.bytes(alloc, header.digest.as_slice());
    answer.add(" ");
    answer.count(header.rows);
}
