use crate::requests::request_in;
use crate::statuses::write_status;
use rt_base::{ControllerId, Moment};
use rt_call_cluster::{KnownSetup, TableTexts};
use rt_call_words::{Answer, Stop, Words};
use rt_controller::{Controller, Handled};
use rt_deep::MemoryDeep;
use rt_store::MemoryStore;
use std::alloc::Global;

/// The last number that a job can have.
const LAST_JOB: u64 = 9_223_372_036_854_775_807;

/// `handle SERVERS CONTROLLERS PARTITIONS START`, a tab, and calls with `; ` between them: a controller of the table's
/// cluster that begins, over the store and the deep store; each call's answer.
pub fn handle(
    alloc: Global,
    store: &mut Option<MemoryStore>,
    deep: &mut MemoryDeep,
    texts: TableTexts,
    words: &mut Words,
    answer: &mut Answer,
) -> Result<(), Stop> {
    let mut made = Words::of(words.until('\t'));
    let calls = words.rest();
    words.ended()?;
    let known = KnownSetup::read(alloc, texts, &mut made)?;
    let Some(store) = store else {
        return Err(Stop::Refused);
    };
    let mut controller = Controller::make(alloc, ControllerId(0), &known.setup)?;
    for (place, call) in calls.split("; ").enumerate() {
        answer.part(place, "; ");
        let mut words = Words::of(call);
        call_controller(alloc, &mut controller, store, deep, &mut words, answer)?;
    }
    Ok(())
}

// `lead on`, `lead off`, or `NOW sK P/Q REQUEST`.
fn call_controller(
    alloc: Global,
    controller: &mut Controller,
    store: &mut MemoryStore,
    deep: &mut MemoryDeep,
    words: &mut Words,
    answer: &mut Answer,
) -> Result<(), Stop> {
    if words.begins_with('l') {
        return lead(controller, words, answer);
    }
    let now = Moment(words.number());
    let request = request_in(alloc, words)?;
    if controller.started() > LAST_JOB {
        return Err(Stop::Refused);
    }
    match controller.on_request(alloc, &request, now, store, deep)? {
        Handled::Reply(reply) => write_status(alloc, &reply.status, answer),
        Handled::Job(number) => {
            answer.add("job ");
            answer.number(number);
            Ok(())
        }
    }
}

fn lead(controller: &mut Controller, words: &mut Words, answer: &mut Answer) -> Result<(), Stop> {
    if words.word() != "lead" {
        return Err(Stop::BadLine);
    }
    let leads = words.is_second("off", "on");
    words.ended()?;
    controller.believe(leads);
    answer.add("ok");
    Ok(())
}
