ghost use Rattle.std.specs.Prelude.{◌≡◌};
ghost use Rattle.rt_script.specs.MessageLines.{deliver_of, job_line_of, reply_of};

use crate::words::{controller, job, message};
use rt_events::Event;
use rt_lines::part_at;

/// `mN cK`
pub(crate) fn deliver(text: &[u8]) -> Option<Event>
    ensures { result ≡ deliver_of text.now }
{
    let (first, second) = part_at(text, b' ')?;
    let message = message(first)?;
    let controller = controller(second)?;
    Some(Event::Deliver {
        message,
        controller,
    })
}

/// `cK jN`
pub(crate) fn job_line(text: &[u8]) -> Option<Event>
    ensures { result ≡ job_line_of text.now }
{
    let (first, second) = part_at(text, b' ')?;
    let controller = controller(first)?;
    let job = job(second)?;
    Some(Event::Job { controller, job })
}

/// `mN`
pub(crate) fn reply(text: &[u8]) -> Option<Event>
    ensures { result ≡ reply_of text.now }
{
    let message = message(text)?;
    Some(Event::Reply { message })
}
