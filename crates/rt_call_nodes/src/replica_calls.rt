//! The calls of a replica.
use crate::reply_words::{done_at, number_in, status_in};
use rt_base::{Moment, Offset};
use rt_call_words::{Answer, Stop, Words};
use rt_model::{ReplicaState, Reply, Request, RequestNumber};
use rt_msgs::{Numbers, request_text};
use rt_replica::{Replica, ReplicaRefused};
use rt_stream::{Feed, StreamLog};
use std::alloc::Global;

/// The last place that a request can have among those of its life.
const LAST_COUNT: u64 = 9_223_372_036_854_775_807;

/// A replica, the numbers of its requests, and the number of the last one.
pub(crate) struct Driven {
    replica: Replica,
    numbers: Numbers,
    last: Option<RequestNumber>,
}

// Written out: whoever drops a driven replica calls this, and its proof needs nothing of the fields.
impl Drop for Driven {
    fn drop(self) {
        let Driven {
            replica: _,
            numbers: _,
            last: _,
        } = self;
    }
}

impl Driven {
    /// A replica that made no request yet.
    pub(crate) fn of(replica: Replica, numbers: Numbers) -> Driven {
        Driven {
            replica,
            numbers,
            last: None,
        }
    }

    /// Where the replica stands.
    pub(crate) fn state(&self) -> ReplicaState {
        self.replica.state()
    }

    /// Makes a call by its word.
    pub(crate) fn call(
        &mut self,
        alloc: Global,
        log: &mut StreamLog,
        words: &mut Words,
        answer: &mut Answer,
    ) -> Result<(), Stop> {
        match words.word() {
            "consume" => consume(alloc, &mut self.replica, log, words, answer),
            "build" => {
                words.ended()?;
                write_done(self.replica.build(alloc), answer)
            }
            "request" => self.request(alloc, words, answer),
            "extend" => self.extend(alloc, words, answer),
            "reply" => self.reply(alloc, words, answer),
            "reply_to" => reply_to(alloc, &mut self.replica, words, answer),
            name => call_plain(alloc, &mut self.replica, name, words, answer),
        }
    }

    // `request`: the request's text.
    fn request(
        &mut self,
        alloc: Global,
        words: &mut Words,
        answer: &mut Answer,
    ) -> Result<(), Stop> {
        words.ended()?;
        if self.numbers.made() > LAST_COUNT {
            return Err(Stop::Refused);
        }
        let asked = self.replica.next_request(alloc, &mut self.numbers);
        self.note(alloc, asked, answer)
    }

    // `extend MILLIS`: the request's text.
    fn extend(
        &mut self,
        alloc: Global,
        words: &mut Words,
        answer: &mut Answer,
    ) -> Result<(), Stop> {
        let millis = words.number();
        words.ended()?;
        if self.numbers.made() > LAST_COUNT {
            return Err(Stop::Refused);
        }
        let asked = self.replica.extend(&mut self.numbers, millis);
        self.note(alloc, asked, answer)
    }

    fn note(
        &mut self,
        alloc: Global,
        asked: Result<Request, ReplicaRefused>,
        answer: &mut Answer,
    ) -> Result<(), Stop> {
        match asked {
            Ok(request) => {
                self.last = Some(request.number);
                answer.add(request_text(alloc, &request)?.as_str());
                Ok(())
            }
            Err(refused) => refuse(refused, answer),
        }
    }

    // `reply STATUS`, to the last request.
    fn reply(&mut self, alloc: Global, words: &mut Words, answer: &mut Answer) -> Result<(), Stop> {
        let Some(number) = self.last else {
            return Err(Stop::Refused);
        };
        take(alloc, &mut self.replica, number, words, answer)
    }
}

// `reply_to sK INCARNATION COUNT STATUS`
fn reply_to(
    alloc: Global,
    replica: &mut Replica,
    words: &mut Words,
    answer: &mut Answer,
) -> Result<(), Stop> {
    let number = number_in(words);
    take(alloc, replica, number, words, answer)
}

fn take(
    alloc: Global,
    replica: &mut Replica,
    number: RequestNumber,
    words: &mut Words,
    answer: &mut Answer,
) -> Result<(), Stop> {
    let reply = Reply {
        number,
        partition: replica.partition(),
        sequence: replica.sequence(),
        status: status_in(alloc, words)?,
    };
    answer.add(if replica.on_reply(reply) {
        "taken"
    } else {
        "ignored"
    });
    Ok(())
}

// `consume MAX NOW`
#[tactic(auto, using(crate::proofs::Streams::has_partition, crate::proofs::Streams::has_messages))]
fn consume(
    alloc: Global,
    replica: &mut Replica,
    log: &mut StreamLog,
    words: &mut Words,
    answer: &mut Answer,
) -> Result<(), Stop> {
    let most = words.count();
    let now = Moment(words.number());
    words.ended()?;
    let Ok(length) = log.length(replica.partition()) else {
        return Err(Stop::Refused);
    };
    if replica.cur().0 > length.0 {
        return Err(Stop::Refused);
    }
    write_done(replica.consume(alloc, log, most, now), answer)
}

fn write_done(done: Result<(), ReplicaRefused>, answer: &mut Answer) -> Result<(), Stop> {
    match done {
        Ok(()) => {
            answer.add("ok");
            Ok(())
        }
        Err(refused) => refuse(refused, answer),
    }
}

fn refuse(refused: ReplicaRefused, answer: &mut Answer) -> Result<(), Stop> {
    match refused {
        ReplicaRefused::NotDue => {
            answer.add("notdue");
            Ok(())
        }
        ReplicaRefused::Memory => Err(Stop::Memory),
    }
}

// The calls that take no memory.
fn call_plain(
    alloc: Global,
    replica: &mut Replica,
    name: &str,
    words: &mut Words,
    answer: &mut Answer,
) -> Result<(), Stop> {
    match name {
        "force" => {
            words.ended()?;
            write_done(replica.force(), answer)
        }
        "stop" => {
            words.ended()?;
            write_done(replica.stop(), answer)
        }
        "learn" => learn(alloc, replica, words, answer),
        _ => look(replica, name, words, answer),
    }
}

// `learn END`: the metadata of the segment's commit is told.
fn learn(
    alloc: Global,
    replica: &mut Replica,
    words: &mut Words,
    answer: &mut Answer,
) -> Result<(), Stop> {
    let end = Offset(words.number());
    words.ended()?;
    if !replica.learns() {
        return refuse(ReplicaRefused::NotDue, answer);
    }
    if end.0 <= replica.first().0 || end.0 < replica.cur().0 {
        return Err(Stop::Refused);
    }
    replica.learn(done_at(alloc, end), end);
    answer.add("ok");
    Ok(())
}

// `ready LENGTH NOW`, `held`: the next offset and the number of rows, `due`: the calls that are due, `upload`: the bytes of
// the upload that is due.
fn look(replica: &Replica, name: &str, words: &mut Words, answer: &mut Answer) -> Result<(), Stop> {
    if name == "ready" {
        let length = Offset(words.number());
        let now = Moment(words.number());
        words.ended()?;
        answer.truth(replica.ready(length, now));
        return Ok(());
    }
    words.ended()?;
    match name {
        "held" => write_held(replica, answer),
        "due" => write_due(replica, answer),
        "upload" => answer.number(replica.upload_bytes()),
        _ => return Err(Stop::BadLine),
    }
    Ok(())
}

fn write_held(replica: &Replica, answer: &mut Answer) {
    answer.number(replica.cur().0);
    answer.add(" ");
    answer.count(replica.rows());
}

fn write_due(replica: &Replica, answer: &mut Answer) {
    write_if(replica.force_due(), "force", answer);
    answer.add(" ");
    write_if(replica.build_due(), "build", answer);
    answer.add(" ");
    write_if(replica.request_due(), "request", answer);
    answer.add(" ");
    write_if(replica.extend_due(), "extend", answer);
}

fn write_if(is_due: bool, name: &str, answer: &mut Answer) {
    answer.add(if is_due { name } else { "-" });
}
