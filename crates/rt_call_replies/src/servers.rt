ghost use Rattle.std.specs.Prelude.{IsTrue};
ghost use Rattle.rt_server.specs.Logs.{HasMessages};

use rt_base::{Moment, Partition, Sequence};
use rt_call_cluster::{KnownSetup, TableTexts};
use rt_call_nodes::{piece_in, write_served};
use rt_call_words::{Answer, Stop, Words};
use rt_server::{Server, ServerRefused};
use rt_stream::{Feed, StreamLog};
use std::alloc::Global;

/// `server sK SERVERS CONTROLLERS PARTITIONS START`, a tab, and calls with `; ` between them: a server of the table's cluster
/// that begins, over the stream; each call's answer.
pub fn server(
    alloc: Global,
    stream: &mut Option<StreamLog>,
    texts: TableTexts,
    words: &mut Words,
    answer: &mut Answer,
) -> Result<(), Stop> {
    let mut made = Words::of(words.until('\t'));
    let calls = words.rest();
    words.ended()?;
    let instance = made.instance_until(' ');
    let known = KnownSetup::read(alloc, texts, &mut made)?;
    let Some(log) = stream else {
        return Err(Stop::Refused);
    };
    let mut server = Server::make(alloc, &known.setup, instance)?;
    for (place, call) in calls.split("; ").enumerate() {
        answer.part(place, "; ");
        call_server(alloc, &mut server, log, &mut Words::of(call), answer)?;
    }
    Ok(())
}

fn call_server(
    alloc: Global,
    server: &mut Server,
    log: &mut StreamLog,
    words: &mut Words,
    answer: &mut Answer,
) -> Result<(), Stop> {
    match words.word() {
        "consume" => consume(alloc, server, log, words, answer),
        "stop" => {
            let segment = words.segment_until(' ');
            words.ended()?;
            write_done(server.stop(segment.partition, segment.sequence), answer)
        }
        "serve" => {
            let segment = words.segment_until(' ');
            let piece = piece_in(segment, words)?;
            write_served(server.rows(alloc, piece), answer)
        }
        _ => Err(Stop::BadLine),
    }
}

// `consume P/Q MAX NOW`
fn consume(
    alloc: Global,
    server: &mut Server,
    log: &mut StreamLog,
    words: &mut Words,
    answer: &mut Answer,
) -> Result<(), Stop> {
    let segment = words.segment_until(' ');
    let most = words.count();
    let now = Moment(words.number());
    words.ended()?;
    let (p, q) = (segment.partition, segment.sequence);
    if !has_messages(server, log, p, q) {
        return Err(Stop::Refused);
    }
    write_done(server.consume(alloc, p, q, log, most, now), answer)
}

// Whether the log has all messages that the segment's replica took, where there is one.
#[tactic(auto, using(rt_call_nodes::proofs::Streams::has_partition, rt_call_nodes::proofs::Streams::has_messages))]
fn has_messages(
    server: &Server,
    log: &mut StreamLog,
    partition: Partition,
    sequence: Sequence,
) -> bool
    ensures { IsTrue result → HasMessages log.new server.now.table partition sequence }
{
    let Some(replica) = server.replica(partition, sequence) else {
        return true;
    };
    match log.length(replica.partition()) {
        Ok(length) => replica.cur().0 <= length.0,
        Err(_) => false,
    }
}

fn write_done(done: Result<(), ServerRefused>, answer: &mut Answer) -> Result<(), Stop> {
    match done {
        Ok(()) => answer.add("ok"),
        Err(ServerRefused::NotDue) => answer.add("notdue"),
        Err(ServerRefused::Memory) => return Err(Stop::Memory),
        Err(_) => return Err(Stop::Refused),
    }
    Ok(())
}
