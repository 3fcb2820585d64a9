//! Threads that share a store, a deep store, a stream and inboxes, and what they are answered: the same whatever the
//! schedule.
#![tactic(auto)]

mod boots;
mod inboxes;
mod looks;
mod role;
mod rows;
mod sections;
mod setup;
mod sharer;
mod sharing;
mod taker;
mod told;
mod turns;

use std::alloc::AllocError;
use std::io::{self, Print};

fn main(rt: HostRuntime) -> io::Result<()> {
    let alloc = rt.alloc();
    show_all(&rt, "alone", sections::alone(rt, alloc))?;
    show_all(&rt, "apart", sections::apart(rt, alloc))?;
    show(&rt, "in turn", sections::in_turn(rt, alloc))?;
    show(&rt, "looks between two writes", looks::between(alloc))?;
    show(&rt, "an inbox of one", inboxes::of_one(&rt, alloc))?;
    show(
        &rt,
        "an inbox of two",
        inboxes::of_capacity(&rt, alloc, 2, 1, 3),
    )?;
    show(
        &rt,
        "an inbox of four",
        inboxes::of_capacity(&rt, alloc, 4, 2, 6),
    )?;
    show(&rt, "inboxes of 1024", inboxes::of_four(&rt, alloc))
}

/// Prints these lines under a name.
fn show_all<R: Print>(
    rt: &R,
    name: &str,
    lines: Result<Vec<String>, AllocError>,
) -> io::Result<()> {
    match lines {
        Ok(lines) => {
            for line in lines.as_slice() {
                println!(rt; "{name}: {line}")?;
            }
            Ok(())
        }
        Err(_) => println!(rt; "{name}: out of memory"),
    }
}

/// Prints this line under a name.
fn show<R: Print>(rt: &R, name: &str, line: Result<String, AllocError>) -> io::Result<()> {
    match line {
        Ok(line) => println!(rt; "{name}: {line}"),
        Err(_) => println!(rt; "{name}: out of memory"),
    }
}
