ghost use Rattle.std.specs.Prelude.{◌≡◌, ◌++◌, OnOk, string_bytes};
ghost use Rattle.rt_live_output.specs.Texts.{heard_lines, journal_text, mid_line, texts, write_line};

use crate::lines::{write_heard_of, write_mid, write_write};
use crate::queues::write_queues;
use rt_lists::{Items, Text};
use rt_model::{Answer, ReplyStatus, Seen};
use std::alloc::{AllocError, Global};

/// A request that a controller handled.
#[derive(Drop)]
pub struct Heard {
    /// The text of the request.
    pub request: Text,
    /// What was answered, by the controller or by the job that it started; none where that job hasn't ended.
    pub status: Option<ReplyStatus>,
}

/// How many messages a queue accepted of its sender, and how many of these were taken.
#[derive(Clone, Copy, Debug, PartialEq, Eq)]
pub struct Queue {
    pub accepted: u64,
    pub taken: u64,
}

/// What a journal shows of a run.
#[derive(Drop)]
pub struct Journal {
    /// The history of the store, its starting contents included.
    pub writes: Items<Seen>,
    /// What each controller heard, in its order.
    pub heard: Items<Items<Heard>>,
    /// The queues of each server, one to each controller.
    pub to_controllers: Items<Items<Queue>>,
    /// The queues of each controller, one to each server.
    pub to_servers: Items<Items<Queue>>,
    /// The broker's first answer to each query.
    pub mids: Items<Answer>,
}

/// Adds the lines of a journal at the end of a text.
pub fn write_journal(alloc: Global, out: &mut String, journal: &Journal) -> Result<(), AllocError>
    ensures { OnOk result (string_bytes out.new ≡ string_bytes out.old
        ++ journal_text journal.now) }
{
    write_writes(alloc, out, journal.writes.as_slice())?;
    write_heard(alloc, out, journal.heard.as_slice())?;
    write_queues(out, "s", "c", journal.to_controllers.as_slice())?;
    write_queues(out, "c", "s", journal.to_servers.as_slice())?;
    write_mids(alloc, out, journal.mids.as_slice())
}

fn write_writes(alloc: Global, out: &mut String, writes: &[Seen]) -> Result<(), AllocError>
    ensures { OnOk result (string_bytes out.new ≡ string_bytes out.old
        ++ texts write_line writes.now) }
{
    for (place, seen) in writes.iter().enumerate() {
        write_write(alloc, out, place, seen)?;
    }
    Ok(())
}

fn write_heard(alloc: Global, out: &mut String, heard: &[Items<Heard>]) -> Result<(), AllocError>
    ensures { OnOk result (string_bytes out.new ≡ string_bytes out.old ++ heard_lines heard.now) }
{
    for (controller, of) in heard.iter().enumerate() {
        write_heard_of(alloc, out, controller, of.as_slice())?;
    }
    Ok(())
}

fn write_mids(alloc: Global, out: &mut String, mids: &[Answer]) -> Result<(), AllocError>
    ensures { OnOk result (string_bytes out.new ≡ string_bytes out.old ++ texts mid_line mids.now) }
{
    for (place, answer) in mids.iter().enumerate() {
        write_mid(alloc, out, place, answer)?;
    }
    Ok(())
}
