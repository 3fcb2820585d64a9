use crate::statuses::write_told;
use rt_base::limits::LAST_NUMBER;
use rt_base::{ControllerId, Instance, Moment, Offset};
use rt_call_cluster::{KnownSetup, KnownTable, TableTexts};
use rt_call_words::{Answer, Segment, Stop, Words};
use rt_commit::{Assignment, Job, JobStage, Stepped, step_at};
use rt_deep::MemoryDeep;
use rt_events::{Event, Outcome};
use rt_lists::Text;
use rt_model::{
    Asked, FailCause, JobStep, Key, Node, Reply, ReplyStatus, RequestNumber, Seen, SegMeta, Status,
};
use rt_report::write_outcome;
use rt_store::MemoryStore;
use std::alloc::Global;

/// `check P/Q START END PATH`: the first step of the job that commits a segment up to an end, over the deep store, as it is
/// reported; and behind a bad upload the header that was wanted and the one that was found.
pub fn check(
    alloc: Global,
    deep: &mut MemoryDeep,
    texts: TableTexts,
    words: &mut Words,
    answer: &mut Answer,
) -> Result<(), Stop> {
    let segment = words.segment_until(' ');
    let start = Offset(words.number());
    let end = Offset(words.number());
    let path = Text::copied_from(alloc, words.word())?;
    words.ended()?;
    let known = KnownSetup::of_table(KnownTable::read(alloc, texts)?, 2)?;
    let asked = asked_of(segment);
    let did = first_step(alloc, &known, asked, start, end, path, deep)?;
    let cause = cause_of(&did);
    write_step(alloc, asked, did, answer)?;
    if let Some(cause) = cause {
        write_told(alloc, cause, answer);
    }
    Ok(())
}

// The metadata of a segment in progress.
fn read_from(alloc: Global, asked: Asked, start: Offset) -> Seen {
    Seen {
        key: Key::Meta(asked.partition, asked.sequence),
        version: 0,
        node: Node::Meta(SegMeta {
            name: Text::new(alloc),
            start,
            status: Status::InProgress,
            written: Moment(0),
        }),
    }
}

fn asked_of(segment: Segment) -> Asked {
    Asked {
        number: RequestNumber {
            instance: Instance(0),
            incarnation: 0,
            count: 0,
        },
        partition: segment.partition,
        sequence: segment.sequence,
    }
}

// The job's store is a fresh one, which a check doesn't call.
fn first_step(
    alloc: Global,
    known: &KnownSetup,
    asked: Asked,
    start: Offset,
    end: Offset,
    path: Text,
    deep: &mut MemoryDeep,
) -> Result<Stepped, Stop> {
    if asked.sequence.0 >= LAST_NUMBER {
        return Err(Stop::Refused);
    }
    let assignment = Assignment::of(alloc, &known.setup)?;
    let mut store = MemoryStore::make(alloc, &known.setup)?;
    let mut jobs = Vec::new(alloc);
    jobs.push(Job {
        number: 0,
        asked,
        stage: JobStage::Check {
            read: read_from(alloc, asked, start),
            end,
            path,
        },
    })?;
    let now = Moment(0);
    Ok(step_at(&mut jobs, 0, alloc, &assignment, now, &mut store, deep)?)
}

fn cause_of(did: &Stepped) -> Option<FailCause> {
    match did.status {
        Some(ReplyStatus::Failed(cause)) => Some(cause),
        _ => None,
    }
}

fn write_step(alloc: Global, asked: Asked, did: Stepped, answer: &mut Answer) -> Result<(), Stop> {
    let event = Event::Job {
        controller: ControllerId(0),
        job: 0,
    };
    let outcome = Outcome::Stepped {
        step: JobStep {
            step: did.step,
            outcome: did.outcome,
            reply: reply_of(asked, did.status),
        },
        message: Some(0),
    };
    let mut line = String::new(alloc);
    write_outcome(alloc, &mut line, &event, &outcome)?;
    answer.add(Words::of(line.as_str()).until('\n'));
    Ok(())
}

fn reply_of(asked: Asked, status: Option<ReplyStatus>) -> Option<Reply> {
    match status {
        Some(status) => Some(Reply {
            number: asked.number,
            partition: asked.partition,
            sequence: asked.sequence,
            status,
        }),
        None => None,
    }
}
