//! Plays the script of standard input over streams in memory that fail, and prints of each run what its sink took and how it
//! ended: that a report line is offered whole, which no clause says, is seen here.
#![tactic(auto)]

mod played;

use played::played;
use std::alloc::AllocError;
use std::io::{self, Print, Read};

/// More bytes than the report has.
const ROOM: u64 = 4_096;

fn main(rt: HostRuntime) -> io::Result<()> {
    let alloc = rt.alloc();
    let mut script = Vec::new(alloc);
    rt.reader().read_to_end(&mut script)?;
    let script = script.as_slice();
    show(
        &rt,
        "no call fails",
        played(alloc, script, None, None, ROOM),
    )?;
    show(
        &rt,
        "write 0 fails",
        played(alloc, script, None, Some(0), ROOM),
    )?;
    show(
        &rt,
        "write 1 fails",
        played(alloc, script, None, Some(1), ROOM),
    )?;
    show(
        &rt,
        "write 2 fails",
        played(alloc, script, None, Some(2), ROOM),
    )?;
    show(
        &rt,
        "room for 27 bytes",
        played(alloc, script, None, None, 27),
    )?;
    show(
        &rt,
        "read 0 fails",
        played(alloc, script, Some(0), None, ROOM),
    )
}

/// Prints what came of a run, behind what fails in it.
fn show<R: Print>(rt: &R, fails: &str, came: Result<String, AllocError>) -> io::Result<()> {
    match came {
        Ok(came) => println!(rt; "{fails}: {came}"),
        Err(_) => println!(rt; "{fails}: out of memory"),
    }
}
