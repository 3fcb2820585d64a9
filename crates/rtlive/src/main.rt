//! Runs the nodes of a cluster by threads over the rows and queries of standard input, and writes the answers, and by the
//! word `--journal` what a run can show, to standard output.
#![tactic(auto)]

use rt_base::{OpenGate, StdSink, StdSource, StepClock};
use rt_lines::PlayFault;
use rt_live::{LiveEnd, live};
use rt_program::{end, slices_of, words_of};
use std::alloc::Global;
use std::io::{self, BufWriter, Read, Write};
use std::process::ExitCode;
use std::sync::Wait;
use std::thread::Threads;

/// What is printed where the words aren't those of the program.
const USAGE: &str = "usage: rtlive [--journal]";

fn main(rt: HostRuntime) -> ExitCode {
    let ended = match words_of(&rt) {
        Ok(words) => run(&rt, rt.alloc(), &words, rt.reader(), io::writer(&rt)),
        Err(fault) => Err(fault),
    };
    end(&rt, ended, USAGE)
}

// Runs the cluster by the program's words. The output is written by the buffer; a fault of its last write is one of the
// output's.
fn run<R: Threads + Wait + Copy + Send + Sync, I: Read + Drop, O: Write + Drop>(
    rt: &R,
    alloc: Global,
    texts: &[String],
    reader: I,
    writer: O,
) -> Result<LiveEnd, PlayFault> {
    let Ok(words) = slices_of(alloc, texts) else {
        return Err(PlayFault::Memory);
    };
    let Ok(writer) = BufWriter::new(alloc, writer) else {
        return Err(PlayFault::Memory);
    };
    let mut source = StdSource::make(reader);
    let mut sink = StdSink::make(writer);
    let clock = StepClock::make();
    let ended = live(
        *rt,
        alloc,
        words.as_slice(),
        &mut source,
        &mut sink,
        &clock,
        &OpenGate,
    );
    match sink.finish() {
        Ok(()) => ended,
        Err(_) => Err(PlayFault::WriteFault),
    }
}
