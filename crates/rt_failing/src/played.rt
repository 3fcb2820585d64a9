use rt_base::{MemorySink, MemorySource};
use rt_lines::PlayFault;
use rt_play::{PlayEnd, play};
use std::alloc::{AllocError, Global};

/// Plays a script over a source and a sink that fail a call each, by its number, where one is told: how the run ended, and what
/// the sink took, which has so much room.
pub(crate) fn played(
    alloc: Global,
    script: &[u8],
    read: Option<u64>,
    write: Option<u64>,
    room: u64,
) -> Result<String, AllocError> {
    let mut bytes = Vec::new(alloc);
    bytes.extend_from_slice(script)?;
    let mut source = MemorySource::make(bytes, list_of(alloc, read)?);
    let mut sink = MemorySink::make(alloc, room, list_of(alloc, write)?)?;
    let ended = play(alloc, &[], &mut source, &mut sink);
    told(alloc, ended, sink.bytes())
}

fn list_of(alloc: Global, call: Option<u64>) -> Result<Vec<u64>, AllocError> {
    let mut calls = Vec::new(alloc);
    if let Some(call) = call {
        calls.push(call)?;
    }
    Ok(calls)
}

fn told(
    alloc: Global,
    ended: Result<PlayEnd, PlayFault>,
    taken: &[u8],
) -> Result<String, AllocError> {
    let text = str::from_utf8(taken).unwrap_or("no text");
    match ended {
        Ok(_) => format!(in alloc; "status 0, {text:?}"),
        Err(fault) => {
            let status = fault.status();
            format!(in alloc; "status {status}, {text:?}")
        }
    }
}
