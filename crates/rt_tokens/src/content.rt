ghost use Rattle.std.specs.Prelude.{◌≡◌, ◌+◌, ◌-◌, ◌≤◌, ◌<◌, length, drop, slice_index, IfOk, IfSome};
ghost use Rattle.rt_tokens.specs.Tokens.{content};

use rt_lists::Text;
use std::alloc::{AllocError, Global};

/// What a text in quotes says, and how many bytes it takes with the quote at its end.
#[derive(Drop)]
pub(crate) struct Content {
    pub(crate) text: Text,
    pub(crate) size: usize,
}

/// What stands at a place, behind a quote, up to the next lone quote, with one quote for two.
pub(crate) fn content_at(
    alloc: Global,
    text: &str,
    start: usize,
) -> Result<Option<Content>, AllocError>
    requires within { (0 < start) × (start ≤ length text.now) }
    requires quote { slice_index text.now (start - 1) ≡ 39 }
    ensures value { IfOk result (λ found. found ≡ content (drop start text.now)) }
    ensures within { IfOk result (λ found. IfSome found (λ c. (0 < c.size) × (start + c.size ≤ length text.now))) }
{
    let bytes = text.as_bytes();
    let mut content = Text::new(alloc);
    let mut from = start;
    let mut at = start;
    while at < bytes.len() {
        if bytes[at] != b'\'' {
            at += 1;
            continue;
        }
        content.push_str(&text[from..at])?;
        if at + 1 == bytes.len() || bytes[at + 1] != b'\'' {
            let size = at + 1 - start;
            return Ok(Some(Content {
                text: content,
                size,
            }));
        }
        // The second quote begins the next piece.
        from = at + 1;
        at += 2;
    }
    Ok(None)
}
