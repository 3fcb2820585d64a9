use crate::cluster_words::write_instances;
use crate::setups::{KnownTable, TableTexts};
use rt_base::limits::LAST_MOMENT;
use rt_base::{Moment, Offset, Partition};
use rt_call_words::{Answer, Segment, Stop, Words};
use rt_lists::Text;
use rt_meta::{abandoned_of, done_of, first};
use rt_model::{Commit, SegMeta};
use std::alloc::Global;

/// `meta P/Q START NOW` of the table, and behind a tab `done END PATH DIGEST ROWS NOW` or `abandoned NOW`: the text of
/// the metadata.
pub fn meta(
    alloc: Global,
    texts: TableTexts,
    words: &mut Words,
    answer: &mut Answer,
) -> Result<(), Stop> {
    let mut made = Words::of(words.until('\t'));
    let ending = words.more();
    words.ended()?;
    let meta = first_of(alloc, texts, &mut made)?;
    match ending {
        Some(ending) => write_ended(alloc, &meta, &mut Words::of(ending), answer),
        None => write_meta(alloc, &meta, answer),
    }
}

fn write_meta(alloc: Global, meta: &SegMeta, answer: &mut Answer) -> Result<(), Stop> {
    answer.add(rt_meta::text(alloc, meta)?.as_str());
    Ok(())
}

// `P/Q START NOW`
fn first_of(alloc: Global, texts: TableTexts, words: &mut Words) -> Result<SegMeta, Stop> {
    let segment = words.segment_until(' ');
    let start = Offset(words.number());
    let now = Moment(words.number());
    words.ended()?;
    let known = KnownTable::read(alloc, texts)?;
    first_meta(alloc, &known, segment, start, now)
}

/// The metadata of a new segment of the table.
pub fn first_meta(
    alloc: Global,
    known: &KnownTable,
    segment: Segment,
    start: Offset,
    now: Moment,
) -> Result<SegMeta, Stop> {
    if now.0 > LAST_MOMENT {
        return Err(Stop::Refused);
    }
    let table = known.table.name.as_str();
    Ok(first(
        alloc,
        table,
        segment.partition,
        segment.sequence,
        start,
        now,
    )?)
}

fn write_ended(
    alloc: Global,
    meta: &SegMeta,
    words: &mut Words,
    answer: &mut Answer,
) -> Result<(), Stop> {
    let ended = match words.word() {
        "done" => done(alloc, meta, words)?,
        "abandoned" => abandoned(alloc, meta, words)?,
        _ => return Err(Stop::BadLine),
    };
    write_meta(alloc, &ended, answer)
}

// `END PATH DIGEST ROWS NOW`
fn done(alloc: Global, meta: &SegMeta, words: &mut Words) -> Result<SegMeta, Stop> {
    let end = Offset(words.number());
    let path = words.word();
    let digest = words.bytes(alloc);
    let rows = words.count();
    let now = Moment(words.number());
    words.ended()?;
    let Ok(digest) = <[u8; 32]>::try_from(digest.as_slice()) else {
        return Err(Stop::BadLine);
    };
    let commit = Commit {
        end,
        path: Text::copied_from(alloc, path)?,
        digest,
        rows,
    };
    Ok(done_of(alloc, meta, commit, now)?)
}

// `NOW`
fn abandoned(alloc: Global, meta: &SegMeta, words: &mut Words) -> Result<SegMeta, Stop> {
    let now = Moment(words.number());
    words.ended()?;
    Ok(abandoned_of(alloc, meta, now)?)
}

/// `replicas P REPLICATION SERVERS`: the servers of a partition.
pub fn replicas(alloc: Global, words: &mut Words, answer: &mut Answer) -> Result<(), Stop> {
    let partition = Partition(words.count());
    let replication = words.count();
    let servers = words.count();
    words.ended()?;
    if replication < 1 || replication > servers {
        return Err(Stop::Refused);
    }
    let listed = rt_assign::replicas(alloc, partition, replication, servers)?;
    write_instances(listed.as_slice(), answer);
    Ok(())
}

/// `replica P K REPLICATION SERVERS`: one of them.
pub fn replica(words: &mut Words, answer: &mut Answer) -> Result<(), Stop> {
    let partition = Partition(words.count());
    let place = words.count();
    let replication = words.count();
    let servers = words.count();
    words.ended()?;
    if replication < 1 || replication > servers {
        return Err(Stop::Refused);
    }
    let instance = rt_assign::replica(partition, place, replication, servers);
    write_instances(&[instance], answer);
    Ok(())
}
