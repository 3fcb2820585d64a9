//! The ways in and out of memory, the clock and the gate.
use rt_base::{Clock, Gate, MemorySink, MemorySource, NodeId, OpenGate, Sink, Source, StepClock};
use rt_call_words::{Answer, Stop, Words};
use std::alloc::Global;

/// `source BYTES FAILS`, a tab and the lengths of pieces: what each read gives.
pub fn source(alloc: Global, words: &mut Words, answer: &mut Answer) -> Result<(), Stop> {
    let bytes = words.bytes(alloc);
    let fails = words.numbers_until(alloc, '\t');
    let sizes = words.counts(alloc);
    words.ended()?;
    let mut source = MemorySource::make(bytes, fails);
    for (place, size) in sizes.iter().enumerate() {
        answer.part(place, "; ");
        read(alloc, &mut source, *size, answer)?;
    }
    Ok(())
}

fn read(
    alloc: Global,
    source: &mut MemorySource,
    size: u32,
    answer: &mut Answer,
) -> Result<(), Stop> {
    let mut piece = vec![in alloc; 0u8; size as usize]?;
    match source.read(piece.as_mut_slice()) {
        Ok(count) => answer.bytes(alloc, &piece.as_slice()[..count]),
        Err(_) => answer.add("failed"),
    }
    Ok(())
}

/// `sink ROOM FAILS`, a tab and pieces: what each write answers, then what was taken.
pub fn sink(alloc: Global, words: &mut Words, answer: &mut Answer) -> Result<(), Stop> {
    let room = words.number();
    let fails = words.numbers_until(alloc, '\t');
    let pieces = words.rest();
    words.ended()?;
    let mut sink = MemorySink::make(alloc, room, fails)?;
    for piece in pieces.split(' ') {
        write(alloc, &mut sink, piece, answer)?;
    }
    answer.bytes(alloc, sink.bytes());
    Ok(())
}

fn write(
    alloc: Global,
    sink: &mut MemorySink,
    piece: &str,
    answer: &mut Answer,
) -> Result<(), Stop> {
    let mut words = Words::of(piece);
    let bytes = words.bytes(alloc);
    words.ended()?;
    match sink.write(bytes.as_slice()) {
        Ok(count) => answer.number(count as u64),
        Err(_) => answer.add("failed"),
    }
    answer.add("; ");
    Ok(())
}

/// `clock COUNT`: what a clock that steps answers.
pub fn clock(words: &mut Words, answer: &mut Answer) -> Result<(), Stop> {
    let count = words.count();
    words.ended()?;
    let clock = StepClock::make();
    for place in 0..count {
        if place > 0 {
            answer.add(" ");
        }
        answer.number(clock.now().0);
    }
    Ok(())
}

/// `gate TURN`: the broker passes an open gate.
pub fn gate(words: &mut Words, answer: &mut Answer) -> Result<(), Stop> {
    let turn = words.number();
    words.ended()?;
    OpenGate.pass(NodeId::Broker, turn);
    answer.add("passed");
    Ok(())
}
