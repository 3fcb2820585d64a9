ghost use Rattle.std.specs.Prelude.{◌≡◌, IfOk};
ghost use Rattle.rt_script.specs.FurtherLines.{
  bare_of,
  force_status_of,
  loaded_of,
  offline_of,
  peer_of,
  plan_by,
  rehearse_of,
};

use crate::Further;
use crate::query_text::utf8;
use crate::words::{force_job, replica};
use rt_lines::{field, part_at};
use rt_lists::Text;
use std::alloc::{AllocError, Global};

/// A line of one word.
pub(crate) fn bare(line: &[u8]) -> Option<Further>
    ensures { result ≡ bare_of line.now }
{
    if line == b"pause".as_slice() {
        Some(Further::Pause)
    } else if line == b"resume".as_slice() {
        Some(Further::Resume)
    } else if line == b"forceCommit".as_slice() {
        Some(Further::ForceCommit)
    } else {
        None
    }
}

/// `TEXT` in UTF-8
pub(crate) fn offline(alloc: Global, text: &[u8]) -> Result<Option<Further>, AllocError>
    ensures { IfOk result (λ further. further ≡ offline_of text.now) }
{
    let Some(text) = utf8(text) else {
        return Ok(None);
    };
    let text = Text::copied_from(alloc, text)?;
    Ok(Some(Further::Offline { text }))
}

/// `fN`
pub(crate) fn force_status(text: &[u8]) -> Option<Further>
    ensures { result ≡ force_status_of text.now }
{
    let job = force_job(text)?;
    Some(Further::ForceStatus { job })
}

/// `sK P/Q`
pub(crate) fn peer(text: &[u8]) -> Option<Further>
    ensures { result ≡ peer_of text.now }
{
    let at = replica(text)?;
    Some(Further::Peer {
        instance: at.instance,
        partition: at.segment.partition,
        sequence: at.segment.sequence,
    })
}

/// `step`, `loaded sK P/Q` or `servers=N keep=K`
pub(crate) fn rehearse(text: &[u8]) -> Option<Further>
    ensures { result ≡ rehearse_of text.now }
{
    if text == b"step".as_slice() {
        return Some(Further::Step);
    }
    let (word, text) = part_at(text, b' ')?;
    if word == b"loaded".as_slice() {
        loaded(text)
    } else {
        plan(word, text)
    }
}

// `sK P/Q`
fn loaded(text: &[u8]) -> Option<Further>
    ensures { result ≡ loaded_of text.now }
{
    let at = replica(text)?;
    Some(Further::Loaded {
        instance: at.instance,
        partition: at.segment.partition,
        sequence: at.segment.sequence,
    })
}

// `servers=N` and `keep=K`
fn plan(first: &[u8], second: &[u8]) -> Option<Further>
    ensures { result ≡ plan_by first.now second.now }
{
    let servers = field(b"servers=".as_slice(), first)?;
    let keep = field(b"keep=".as_slice(), second)?;
    Some(Further::Rehearse { servers, keep })
}
