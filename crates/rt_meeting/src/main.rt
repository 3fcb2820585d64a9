//! Runs the nodes of a cluster over the input of standard input as `rtlive` does, through a gate at which so many nodes wait
//! for each other as the first word says. A run in which a node never comes, comes by another's name or out of its turn, or
//! in which they don't run beside each other, ends with status 1. The words behind the first are those of `rtlive`.
#![tactic(auto)]

mod meeting;

use meeting::Meeting;
use rt_base::{StdSink, StdSource, StepClock};
use rt_lines::{PlayFault, word_number};
use rt_live::{LiveEnd, live};
use rt_program::{end, slices_of, words_of};
use std::alloc::Global;
use std::io::{self, BufWriter, Read, Write};
use std::process::ExitCode;
use std::sync::Wait;
use std::thread::Threads;

/// What is printed where the words aren't those of the program.
const USAGE: &str = "usage: rt_meeting NODES [--journal]";

fn main(rt: HostRuntime) -> ExitCode {
    let held = match words_of(&rt) {
        Ok(words) => meet(&rt, rt.alloc(), &words, rt.reader(), io::writer(&rt)),
        Err(fault) => Err(fault),
    };
    match held {
        Ok(false) => ExitCode::FAILURE,
        held => end(&rt, held, USAGE),
    }
}

// Runs the cluster by the program's words; whether the meeting was held.
fn meet<R: Threads + Wait + Copy + Send + Sync, I: Read + Drop, O: Write + Drop>(
    rt: &R,
    alloc: Global,
    texts: &[String],
    reader: I,
    writer: O,
) -> Result<bool, PlayFault> {
    let Ok(words) = slices_of(alloc, texts) else {
        return Err(PlayFault::Memory);
    };
    let [first, rest @ ..] = words.as_slice() else {
        return Err(PlayFault::Usage);
    };
    let Some(nodes) = word_number(first.as_bytes()) else {
        return Err(PlayFault::Usage);
    };
    let Ok(meeting) = Meeting::of(alloc, nodes) else {
        return Err(PlayFault::Memory);
    };
    let _end = run(rt, alloc, rest, &meeting, reader, writer)?;
    Ok(meeting.was_held())
}

// Runs the cluster through the gate.
fn run<R: Threads + Wait + Copy + Send + Sync, I: Read + Drop, O: Write + Drop>(
    rt: &R,
    alloc: Global,
    words: &[&str],
    meeting: &Meeting,
    reader: I,
    writer: O,
) -> Result<LiveEnd, PlayFault> {
    let Ok(writer) = BufWriter::new(alloc, writer) else {
        return Err(PlayFault::Memory);
    };
    let mut source = StdSource::make(reader);
    let mut sink = StdSink::make(writer);
    let clock = StepClock::make();
    let ended = live(*rt, alloc, words, &mut source, &mut sink, &clock, meeting);
    match sink.finish() {
        Ok(()) => ended,
        Err(_) => Err(PlayFault::WriteFault),
    }
}
