use crate::replica_calls::Driven;
use rt_base::{Moment, Offset};
use rt_call_cluster::{KnownSetup, KnownTable, TableTexts, first_meta};
use rt_call_words::{Answer, Stop, Words};
use rt_model::ReplicaState;
use rt_msgs::Numbers;
use rt_replica::Replica;
use rt_stream::StreamLog;
use std::alloc::Global;

/// `consumer P/Q START sK INCARNATION FORMAT NOW`, a tab, and calls with `; ` between them: a replica of the table's
/// segment over the stream; each call's answer, and the state after it.
pub fn consumer(
    alloc: Global,
    stream: &mut Option<StreamLog>,
    texts: TableTexts,
    words: &mut Words,
    answer: &mut Answer,
) -> Result<(), Stop> {
    let mut made = Words::of(words.until('\t'));
    let calls = words.rest();
    words.ended()?;
    let mut driven = start(alloc, texts, &mut made)?;
    let Some(log) = stream else {
        return Err(Stop::Refused);
    };
    for (place, call) in calls.split("; ").enumerate() {
        answer.part(place, "; ");
        driven.call(alloc, log, &mut Words::of(call), answer)?;
        answer.add(" -> ");
        answer.add(state_name(driven.state()));
    }
    Ok(())
}

// `P/Q START sK INCARNATION FORMAT NOW`
fn start(alloc: Global, texts: TableTexts, words: &mut Words) -> Result<Driven, Stop> {
    let segment = words.segment_until(' ');
    let start = Offset(words.number());
    let instance = words.instance_until(' ');
    let incarnation = words.number();
    let format = words.count();
    let now = Moment(words.number());
    words.ended()?;
    let known = KnownTable::read(alloc, texts)?;
    let meta = first_meta(alloc, &known, segment, start, now)?;
    let known = KnownSetup::of_table(known, format)?;
    let replica = Replica::start(
        alloc,
        &known.setup,
        segment.partition,
        segment.sequence,
        &meta,
        now,
    )?;
    Ok(Driven::of(replica, Numbers::make(instance, incarnation)))
}

/// A replica's state by its name.
pub(crate) fn state_name(state: ReplicaState) -> &'static str {
    match state {
        ReplicaState::InitialConsuming => "INITIAL_CONSUMING",
        ReplicaState::CatchingUp => "CATCHING_UP",
        ReplicaState::Holding => "HOLDING",
        ReplicaState::ConsumingToOnline => "CONSUMING_TO_ONLINE",
        ReplicaState::Retaining => "RETAINING",
        ReplicaState::Retained => "RETAINED",
        ReplicaState::Committing => "COMMITTING",
        ReplicaState::Committed => "COMMITTED",
        ReplicaState::Discarded => "DISCARDED",
    }
}
