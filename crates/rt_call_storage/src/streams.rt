use rt_base::limits::LONGEST_MESSAGE;
use rt_base::{Offset, Partition};
use rt_call_words::{Answer, Stop, Words};
use rt_stream::{Feed, FeedRefused, Messages, StreamLog};
use std::alloc::Global;

/// `stream ..`: calls of the log.
pub fn stream(
    alloc: Global,
    stream: &mut Option<StreamLog>,
    words: &mut Words,
    answer: &mut Answer,
) -> Result<(), Stop> {
    let name = words.word();
    if name == "make" {
        *stream = Some(make(alloc, words)?);
        answer.add("ok");
        return Ok(());
    }
    match stream {
        Some(log) => call_log(alloc, log, name, words, answer),
        None => Err(Stop::Refused),
    }
}

fn make(alloc: Global, words: &mut Words) -> Result<StreamLog, Stop> {
    let partitions = words.count();
    words.ended()?;
    Ok(StreamLog::make(alloc, partitions)?)
}

fn call_log(
    alloc: Global,
    log: &mut StreamLog,
    name: &str,
    words: &mut Words,
    answer: &mut Answer,
) -> Result<(), Stop> {
    match name {
        "append" => append(alloc, log, words, answer),
        "fetch" => fetch(alloc, log, words, answer),
        "length" => length(log, words, answer),
        _ => Err(Stop::BadLine),
    }
}

// `append P MESSAGE`: its offset.
fn append(
    alloc: Global,
    log: &mut StreamLog,
    words: &mut Words,
    answer: &mut Answer,
) -> Result<(), Stop> {
    let partition = Partition(words.count());
    let message = words.message(alloc);
    words.ended()?;
    if message.len() > LONGEST_MESSAGE {
        return Err(Stop::Refused);
    }
    match log.append(alloc, partition, message.as_slice()) {
        Ok(offset) => {
            answer.number(offset.0);
            Ok(())
        }
        Err(refused) => refuse(refused, answer),
    }
}

// `fetch P FROM MAX`: the messages, or `none`.
fn fetch(
    alloc: Global,
    log: &mut StreamLog,
    words: &mut Words,
    answer: &mut Answer,
) -> Result<(), Stop> {
    let partition = Partition(words.count());
    let from = Offset(words.number());
    let most = words.count();
    words.ended()?;
    match log.fetch(alloc, partition, from, most) {
        Ok(messages) => {
            write_messages(alloc, &messages, answer);
            Ok(())
        }
        Err(refused) => refuse(refused, answer),
    }
}

fn write_messages(alloc: Global, messages: &Messages, answer: &mut Answer) {
    if messages.is_empty() {
        answer.add("none");
    }
    for place in 0..messages.len() {
        answer.part(place, " ");
        answer.bytes(alloc, messages.get(place));
    }
}

// `length P`
fn length(log: &mut StreamLog, words: &mut Words, answer: &mut Answer) -> Result<(), Stop> {
    let partition = Partition(words.count());
    words.ended()?;
    match log.length(partition) {
        Ok(length) => {
            answer.number(length.0);
            Ok(())
        }
        Err(refused) => refuse(refused, answer),
    }
}

fn refuse(refused: FeedRefused, answer: &mut Answer) -> Result<(), Stop> {
    match refused {
        FeedRefused::NoPartition => answer.add("nopartition"),
        FeedRefused::PastEnd { from, length } => {
            answer.add("pastend ");
            answer.number(from.0);
            answer.add(" ");
            answer.number(length.0);
        }
        FeedRefused::Memory => return Err(Stop::Memory),
    }
    Ok(())
}
