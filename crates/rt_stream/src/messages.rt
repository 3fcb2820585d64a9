ghost use Rattle.std.specs.Prelude.{◌≡◌, ◌≤◌, ◌<◌, ◌+◌, ◌-◌, ◌^◌, ◌↔◌, [], ◌∷◌, ◌++◌, length, take, drop, vec_len, vec_capacity, slice_get, slice_index, IfOk, IsTrue, OnOk, OnErr};
ghost use Rattle.rt_stream.specs.Pages.{cut, shifted, AreEnds};

use rt_base::limits::LONGEST_MESSAGE;
use std::alloc::{AllocError, Global};
use std::marker::Model;

/// The last place at which one more message may begin, so that each place at which one ends is a number of 32 bits.
const LAST_START: usize = 4_294_901_759;

/// Messages, one behind the other in one piece of memory, at most 4 GiB of them; contracts see them as a list.
#[derive(Drop)]
pub struct Messages {
    bytes: Vec<u8>,
    // where each of them ends
    ends: Vec<u32>,
}

impl Model for Messages {
    ghost use Rattle.std.specs.Prelude.{List, ℕ, length};
    ghost use Rattle.rt_stream.specs.Pages.{cut, AreEnds};

    ghost Value = { List (List ℕ) };

    ghost view = { λ p. cut 0 p.ends.items p.bytes.items };

    ghost invariant = { λ p. AreEnds 0 p.ends.items (length p.bytes.items) };
}

impl Messages {
    /// No message. It takes no memory yet.
    pub fn new(alloc: Global) -> Messages
        ensures { result ≡ [] }
    {
        Messages {
            bytes: Vec::new(alloc),
            ends: Vec::new(alloc),
        }
    }

    /// The number of messages.
    pub fn len(&self) -> usize
        ensures { result ≡ length self.now }
    {
        self.ends.len()
    }

    /// Whether there is no message.
    pub fn is_empty(&self) -> bool
        ensures { IsTrue result ↔ (self.now ≡ []) }
    {
        self.len() == 0
    }

    /// Adds a message at the end. Where memory runs out, which is told beyond 4 GiB too, all is as before.
    pub fn push(&mut self, message: &[u8]) -> Result<(), AllocError>
        requires { length message.now ≤ LONGEST_MESSAGE }
        ensures ok { OnOk result (self.new ≡ self.old ++ message.now ∷ []) }
        ensures err { OnErr result (self.new ≡ self.old) }
    {
        let end = end_behind(self.bytes.len(), message.len())?;
        self.ends.reserve(1)?;
        self.bytes.extend_from_slice(message)?;
        self.ends.push_reserved(end);
        Ok(())
    }

    /// Adds a page's messages from one place up to another at the end. Where memory runs out, which is told beyond
    /// 4 GiB too, all is as before.
    pub(crate) fn append_range(
        &mut self,
        page: &Messages,
        from: usize,
        to: usize,
    ) -> Result<(), AllocError>
        requires order { from ≤ to }
        requires within { to ≤ length page.now }
        ensures ok { OnOk result (self.new ≡ self.old ++ take (to - from) (drop from page.now)) }
        ensures err { OnErr result (self.new ≡ self.old) }
    {
        let start = start_of(&page.ends, from);
        let end = start_of(&page.ends, to);
        let base = base_behind(self.bytes.len(), end - start)?;
        self.ends.reserve(to - from)?;
        self.bytes
            .extend_from_slice(&page.bytes[start as usize..end as usize])?;
        push_shifted(&mut self.ends, &page.ends[from..to], start, end, base);
        Ok(())
    }

    /// Makes room for as many messages and bytes more as others have. Where memory runs out, all is as before.
    pub(crate) fn reserve_as(&mut self, others: &Messages) -> Result<(), AllocError>
        ensures { self.new ≡ self.old }
    {
        self.ends.reserve(others.ends.len())?;
        self.bytes.reserve(others.bytes.len())
    }

    /// Gives back the room that no message takes. Where memory runs out, all is as before.
    pub(crate) fn compact(&mut self, alloc: Global) -> Result<(), AllocError>
        ensures { self.new ≡ self.old }
    {
        self.bytes = self.bytes.as_slice().to_vec(alloc)?;
        Ok(())
    }

    /// A message by its place.
    #[tactic(auto, using(crate::proofs::Cuts::length_cut))]
    pub fn get(&self, place: usize) -> &[u8]
        requires { place < length self.now }
        ensures message { slice_get self.now place ≡ Some result.now }
        ensures short { length result.now ≤ LONGEST_MESSAGE }
    {
        piece_of(&self.bytes, &self.ends, place)
    }
}

/// Where a message ends that begins at a place, as far as 32 bits tell it.
fn end_behind(start: usize, size: usize) -> Result<u32, AllocError>
    requires { size ≤ LONGEST_MESSAGE }
    ensures { IfOk result (λ end. end ≡ start + size) }
{
    if start > LAST_START {
        return Err(AllocError);
    }
    Ok((start + size) as u32)
}

/// The place behind the bytes taken so far, where 32 bits tell every place of so many bytes more.
fn base_behind(taken: usize, size: u32) -> Result<u32, AllocError>
    ensures { IfOk result (λ base. (base ≡ taken) × (taken + size < 2 ^ 32)) }
{
    if taken > (u32::MAX - size) as usize {
        return Err(AllocError);
    }
    Ok(taken as u32)
}

/// Adds the ends of messages that stood from a start up to an end, as they are from a base on.
fn push_shifted(ends: &mut Vec<u32>, more: &[u32], start: u32, end: u32, base: u32)
    requires ends { AreEnds start more.now end }
    requires fit { (end - start) + base < 2 ^ 32 }
    requires room { vec_len ends.old + length more.now ≤ vec_capacity ends.old }
    ensures { ends.new.items ≡ ends.old.items ++ shifted start base more.now }
{
    for place in more {
        ends.push_reserved(*place - start + base);
    }
}

/// The bytes of a message.
fn piece_of<'a>(bytes: &'a [u8], ends: &[u32], place: usize) -> &'a [u8]
    requires ends { AreEnds 0 ends.now (length bytes.now) }
    requires place { place < length ends.now }
    ensures message { slice_get (cut 0 ends.now bytes.now) place ≡ Some result.now }
    ensures short { length result.now ≤ LONGEST_MESSAGE }
{
    let (start, end) = bounds_of(ends, place);
    &bytes[start..end]
}

/// Where a message begins, at the end of the one before it, and where it ends.
fn bounds_of(ends: &[u32], place: usize) -> (usize, usize)
    requires { place < length ends.now }
    ensures start { result.0 ≡ slice_index (0 ∷ ends.now) place }
    ensures end { result.1 ≡ slice_index ends.now place }
{
    (start_of(ends, place) as usize, ends[place] as usize)
}

/// Where the messages from a place on begin, at the end of the one before it.
fn start_of(ends: &[u32], place: usize) -> u32
    requires { place ≤ length ends.now }
    ensures { result ≡ slice_index (0 ∷ ends.now) place }
{
    if place == 0 { 0 } else { ends[place - 1] }
}
