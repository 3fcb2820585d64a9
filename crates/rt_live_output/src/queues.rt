ghost use Rattle.std.specs.Prelude.{◌≡◌, ◌++◌, OnOk, string_bytes};
ghost use Rattle.rt_live_output.specs.Texts.{between, queue_line, queue_lines, texts};

use crate::journal::Queue;
use rt_lists::Items;
use std::alloc::AllocError;

/// The queues of each sender to each receiver, whose numbers stand behind these letters.
pub(crate) fn write_queues(
    out: &mut String,
    from: &str,
    to: &str,
    queues: &[Items<Queue>],
) -> Result<(), AllocError>
    ensures { OnOk result (string_bytes out.new ≡ string_bytes out.old
        ++ queue_lines (between from.now to.now) queues.now) }
{
    for (sender, of) in queues.iter().enumerate() {
        write_queues_of(out, from, to, sender, of.as_slice())?;
    }
    Ok(())
}

// The queues of a sender to each receiver.
fn write_queues_of(
    out: &mut String,
    from: &str,
    to: &str,
    sender: usize,
    queues: &[Queue],
) -> Result<(), AllocError>
    ensures { OnOk result (string_bytes out.new ≡ string_bytes out.old
        ++ texts (queue_line (between from.now to.now) sender) queues.now) }
{
    for (receiver, queue) in queues.iter().enumerate() {
        write_queue(out, from, to, sender, receiver, queue)?;
    }
    Ok(())
}

// `queue FROM TO accepted=A taken=B`
fn write_queue(
    out: &mut String,
    from: &str,
    to: &str,
    sender: usize,
    receiver: usize,
    queue: &Queue,
) -> Result<(), AllocError>
    ensures { OnOk result (string_bytes out.new ≡ string_bytes out.old
        ++ queue_line (between from.now to.now) sender receiver queue.now) }
{
    write!(
        out,
        "queue {from}{sender} {to}{receiver} accepted={} taken={}\n",
        queue.accepted, queue.taken
    )
}
