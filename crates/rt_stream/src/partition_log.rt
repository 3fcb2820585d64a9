ghost use Rattle.std.specs.Prelude.{◌≡◌, ◌≤◌, ◌<◌, ◌-◌, ◌%◌, [], ◌∷◌, ◌++◌, length, slice_get, take, drop, IfOk, IfSome, IfNone, OnOk, OnErr};

use crate::Messages;
use rt_base::limits::LONGEST_MESSAGE;
use std::alloc::{AllocError, Global};
use std::marker::Model;
use std::mem;

/// The messages of a page.
const PAGE: usize = 256;

/// The greatest number of full pages: no memory holds as many.
const MOST_PAGES: usize = 1 << 54;

/// The messages of one partition, in pages of which only the last has room.
#[derive(Drop)]
pub(crate) struct PartitionLog {
    full: Vec<Messages>,
    last: Messages,
}

impl Model for PartitionLog {
    ghost use Rattle.std.specs.Prelude.{List, ℕ, vec_len, length, ◌++◌, ◌≤◌};
    ghost use Rattle.std.specs.List.{flat_map};
    ghost use Rattle.rt_stream.specs.Pages.{AreFull};

    ghost Value = { List (List ℕ) };

    ghost view = { λ p. flat_map (λ page. page) p.full.items ++ p.last };

    ghost invariant = { λ p.
        AreFull p.full.items × (length p.last ≤ 256) × (vec_len p.full ≤ 18014398509481984) };
}

impl PartitionLog {
    pub(crate) fn new(alloc: Global) -> PartitionLog
        ensures { result ≡ [] }
    {
        PartitionLog {
            full: Vec::new(alloc),
            last: Messages::new(alloc),
        }
    }

    /// The number of messages.
    pub(crate) fn len(&self) -> u64
        ensures { result ≡ length self.now }
    {
        (self.full.len() * PAGE + self.last.len()) as u64
    }

    /// Adds a message. Where memory runs out, the log is as before.
    pub(crate) fn push(&mut self, alloc: Global, message: &[u8]) -> Result<(), AllocError>
        requires { length message.now ≤ LONGEST_MESSAGE }
        ensures ok { OnOk result (self.new ≡ self.old ++ message.now ∷ []) }
        ensures err { OnErr result (self.new ≡ self.old) }
    {
        if self.last.len() < PAGE {
            return self.last.push(message);
        }
        if self.full.len() >= MOST_PAGES {
            return Err(AllocError);
        }
        let mut page = Messages::new(alloc);
        page.reserve_as(&self.last)?;
        page.push(message)?;
        self.full.reserve(1)?;
        self.last.compact(alloc)?;
        let full = mem::replace(&mut self.last, page);
        self.full.push_reserved(full);
        Ok(())
    }

    /// The message at an offset.
    pub(crate) fn get(&self, offset: u64) -> &[u8]
        requires { offset < length self.now }
        ensures message { slice_get self.now offset ≡ Some result.now }
        ensures short { length result.now ≤ LONGEST_MESSAGE }
    {
        self.page_of(offset).get(place_of(offset))
    }

    /// The page that has the message at an offset, and behind it those that follow in the log.
    fn page_of(&self, offset: u64) -> &Messages
        requires { offset < length self.now }
        ensures within { offset % 256 < length result.now }
        ensures rest { drop (offset % 256) result.now
            ≡ take (length result.now - offset % 256) (drop offset self.now) }
    {
        match page_at(&self.full, (offset / PAGE as u64) as usize) {
            Some(page) => page,
            None => &self.last,
        }
    }

    /// Copies of the messages from an offset on, at most `max` of them.
    pub(crate) fn copied_from(
        &self,
        alloc: Global,
        from: u64,
        max: u32,
    ) -> Result<Messages, AllocError>
        requires { from ≤ length self.now }
        ensures { IfOk result (λ messages. messages ≡ take max (drop from self.now)) }
    {
        let count = (self.len() - from).min(u64::from(max));
        let end = from + count;
        let mut messages = Messages::new(alloc);
        let mut offset = from;
        while offset < end {
            let page = self.page_of(offset);
            let place = place_of(offset);
            let taken = (page.len() - place).min((end - offset) as usize);
            messages.append_range(page, place, place + taken)?;
            offset += taken as u64;
        }
        Ok(messages)
    }
}

/// The place of an offset's message in its page.
fn place_of(offset: u64) -> usize
    ensures { result ≡ offset % 256 }
{
    (offset % PAGE as u64) as usize
}

/// A full page, where there is one of this number.
fn page_at(pages: &[Messages], number: usize) -> Option<&Messages>
    ensures some { IfSome result (λ page. slice_get pages.now number ≡ Some page.now) }
    ensures none { IfNone result (slice_get pages.now number ≡ None) }
{
    pages.get(number)
}
