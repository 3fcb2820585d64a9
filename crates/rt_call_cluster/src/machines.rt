use crate::cluster_words::state_name;
use crate::reactions::write_reaction;
use rt_base::{Instance, Moment, Offset};
use rt_call_words::{Answer, Stop, Words};
use rt_fsm::Machine;
use rt_lists::Text;
use rt_model::{Ask, MachineState, Reason, SeenMeta, SegMeta, Status};
use std::alloc::Global;

/// `machine START REPLICAS STATE MADE`, a tab, and asks with `; ` between them: each ask's reaction, and the state
/// after it.
pub fn machine(alloc: Global, words: &mut Words, answer: &mut Answer) -> Result<(), Stop> {
    let mut machine = machine_in(alloc, words)?;
    let asks = words.rest();
    words.ended()?;
    if asks == "-" {
        answer.add("-");
        return Ok(());
    }
    for (place, ask) in asks.split("; ").enumerate() {
        answer.part(place, "; ");
        call_machine(alloc, &mut machine, &mut Words::of(ask), answer)?;
        answer.add(" -> ");
        answer.add(state_name(machine.state()));
    }
    Ok(())
}

// `START REPLICAS STATE MADE`
fn machine_in(alloc: Global, words: &mut Words) -> Result<Machine, Stop> {
    let start = Offset(words.number());
    let replicas = words.instances(alloc);
    let state = words.word();
    let made = Moment(words.number_until('\t'));
    make(alloc, start, replicas.as_slice(), state, made)
}

fn make(
    alloc: Global,
    start: Offset,
    replicas: &[Instance],
    state: &str,
    made: Moment,
) -> Result<Machine, Stop> {
    let seen = seen_from(alloc, start);
    match state {
        "HOLDING" => { Ok(Machine::make(alloc, seen, replicas, MachineState::Holding, made)?) }
        "PARTIAL_CONSUMING" => {
            Ok(Machine::make(alloc, seen, replicas, MachineState::PartialConsuming, made)?)
        }
        _ => Err(Stop::Refused),
    }
}

fn seen_from(alloc: Global, start: Offset) -> SeenMeta {
    SeenMeta {
        version: 0,
        meta: SegMeta {
            name: Text::new(alloc),
            start,
            status: Status::InProgress,
            written: Moment(0),
        },
    }
}

// `NOW sK ASK`, or `ended TRUTH`.
fn call_machine(
    alloc: Global,
    machine: &mut Machine,
    words: &mut Words,
    answer: &mut Answer,
) -> Result<(), Stop> {
    if words.begins_with('e') {
        return end(machine, words, answer);
    }
    let now = Moment(words.number());
    let sender = words.instance_until(' ');
    let ask = ask_in(words)?;
    words.ended()?;
    write_reaction(alloc, machine.on(sender, ask, now), answer)
}

fn end(machine: &mut Machine, words: &mut Words, answer: &mut Answer) -> Result<(), Stop> {
    let _ended = words.word();
    let is_committed = words.is_second("false", "true");
    words.ended()?;
    if machine.state() != MachineState::Committing {
        return Err(Stop::Refused);
    }
    machine.ended(is_committed);
    answer.add("-");
    Ok(())
}

// The words are looked at behind the ask.
fn ask_in(words: &mut Words) -> Result<Ask, Stop> {
    match words.word() {
        "stopped" => Ok(Ask::Stopped),
        "consumed" => {
            let offset = Offset(words.number());
            let reason = reason_in(words.word())?;
            Ok(Ask::Consumed { offset, reason })
        }
        "commitStart" => Ok(Ask::CommitStart {
            offset: Offset(words.number()),
        }),
        "commitEnd" => Ok(Ask::CommitEnd {
            offset: Offset(words.number()),
        }),
        "extend" => Ok(Ask::Extend {
            millis: words.number(),
        }),
        _ => Err(Stop::BadLine),
    }
}

/// `rowLimit`, `timeLimit` or `force`: why a replica stopped to consume.
pub fn reason_in(word: &str) -> Result<Reason, Stop> {
    match word {
        "rowLimit" => Ok(Reason::RowLimit),
        "timeLimit" => Ok(Reason::TimeLimit),
        "force" => Ok(Reason::Force),
        _ => Err(Stop::BadLine),
    }
}
