ghost use Rattle.std.specs.Prelude.{◌≡◌, ◌++◌, OnOk, string_bytes};
ghost use Rattle.rt_live_output.specs.Texts.{answered_text, heard_line, key_text, mid_line, texts, write_line};

use crate::journal::Heard;
use rt_lines::answer_text;
use rt_model::{Answer, Key, ReplyStatus, Seen};
use rt_msgs::status_text;
use rt_report::write_stored;
use std::alloc::{AllocError, Global};

/// `write N KEY VERSION TEXT`
pub(crate) fn write_write(
    alloc: Global,
    out: &mut String,
    number: usize,
    seen: &Seen,
) -> Result<(), AllocError>
    ensures { OnOk result (string_bytes out.new ≡ string_bytes out.old
        ++ write_line number seen.now) }
{
    write!(out, "write {number} ")?;
    write_key(out, seen.key)?;
    write!(out, " {} ", seen.version)?;
    write_stored(alloc, out, &seen.node)?;
    out.push_str("\n")
}

// `meta/P/Q`, `ideal` or `boot/K`
fn write_key(out: &mut String, key: Key) -> Result<(), AllocError>
    ensures { OnOk result (string_bytes out.new ≡ string_bytes out.old ++ key_text key) }
{
    match key {
        Key::Meta(partition, sequence) => write!(out, "meta/{}/{}", partition.0, sequence.0),
        Key::Ideal => out.push_str("ideal"),
        Key::Boot(instance) => write!(out, "boot/{}", instance.0),
    }
}

/// What a controller heard.
pub(crate) fn write_heard_of(
    alloc: Global,
    out: &mut String,
    controller: usize,
    heard: &[Heard],
) -> Result<(), AllocError>
    ensures { OnOk result (string_bytes out.new ≡ string_bytes out.old
        ++ texts (heard_line controller) heard.now) }
{
    for (place, one) in heard.iter().enumerate() {
        write_heard_one(alloc, out, controller, place, one)?;
    }
    Ok(())
}

// `heard cK N REQUEST -> STATUS`
fn write_heard_one(
    alloc: Global,
    out: &mut String,
    controller: usize,
    number: usize,
    heard: &Heard,
) -> Result<(), AllocError>
    ensures { OnOk result (string_bytes out.new ≡ string_bytes out.old
        ++ heard_line controller number heard.now) }
{
    write!(out, "heard c{controller} {number} ")?;
    out.push_str(heard.request.as_str())?;
    out.push_str(" -> ")?;
    write_answered(alloc, out, &heard.status)?;
    out.push_str("\n")
}

fn write_answered(
    alloc: Global,
    out: &mut String,
    status: &Option<ReplyStatus>,
) -> Result<(), AllocError>
    ensures { OnOk result (string_bytes out.new ≡ string_bytes out.old
        ++ answered_text status.now) }
{
    match status {
        Some(status) => {
            let status = status_text(alloc, status)?;
            out.push_str(status.as_str())
        }
        None => out.push_str("none"),
    }
}

/// `mid ANSWER`
pub(crate) fn write_mid(
    alloc: Global,
    out: &mut String,
    number: usize,
    answer: &Answer,
) -> Result<(), AllocError>
    ensures { OnOk result (string_bytes out.new ≡ string_bytes out.old
        ++ mid_line number answer.now) }
{
    out.push_str("mid ")?;
    let text = answer_text(alloc, answer)?;
    out.push_str(text.as_str())?;
    out.push_str("\n")
}
