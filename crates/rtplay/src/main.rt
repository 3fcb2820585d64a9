//! Runs the script of standard input, and writes its report to standard output.
#![tactic(auto)]

use rt_base::{StdSink, StdSource};
use rt_lines::PlayFault;
use rt_play::{PlayEnd, play};
use rt_program::{end, slices_of, words_of};
use std::io::{self, BufWriter};
use std::process::ExitCode;

/// What is printed where the words aren't those of the program.
const USAGE: &str = "usage: rtplay [gen SEED PARTITIONS ROWS]";

fn main(rt: HostRuntime) -> ExitCode {
    end(&rt, run(&rt), USAGE)
}

// Runs the script by the program's words. The report is written by the buffer; a fault of its last write is one
// of the report's.
fn run(rt: &HostRuntime) -> Result<PlayEnd, PlayFault> {
    let alloc = rt.alloc();
    let texts = words_of(rt)?;
    let Ok(words) = slices_of(alloc, &texts) else {
        return Err(PlayFault::Memory);
    };
    let Ok(writer) = BufWriter::new(alloc, io::writer(rt)) else {
        return Err(PlayFault::Memory);
    };
    let mut source = StdSource::make(rt.reader());
    let mut sink = StdSink::make(writer);
    let ended = play(alloc, words.as_slice(), &mut source, &mut sink);
    match sink.finish() {
        Ok(()) => ended,
        Err(_) => Err(PlayFault::WriteFault),
    }
}
