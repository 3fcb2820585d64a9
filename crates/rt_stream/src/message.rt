ghost use Rattle.std.specs.Prelude.{◌≡◌, ◌≤◌, ◌↔◌, [], length, IfOk, IsTrue};

use rt_base::limits::LONGEST_MESSAGE;
use rt_lists::{Bytes, Copied};
use std::alloc::{AllocError, Global};
use std::marker::Model;

/// A message of the stream: at most `LONGEST_MESSAGE` bytes; contracts see it as the list of them.
#[derive(Drop)]
pub struct Message {
    bytes: Bytes,
}

impl Model for Message {
    ghost use Rattle.std.specs.Prelude.{List, ℕ, length, ◌≤◌};
    ghost use Rattle.rt_base.specs.declared.limits.TheConstants.{LONGEST_MESSAGE};

    ghost Value = { List ℕ };

    ghost view = { λ m. m.bytes };

    ghost invariant = { λ m. length m.bytes ≤ LONGEST_MESSAGE };
}

impl Message {
    /// The message of these bytes.
    pub fn of(bytes: Bytes) -> Message
        requires { length bytes ≤ LONGEST_MESSAGE }
        ensures { result ≡ bytes }
    {
        Message { bytes }
    }

    /// The message of a copy of these bytes.
    pub fn copied_from(alloc: Global, bytes: &[u8]) -> Result<Message, AllocError>
        requires { length bytes.now ≤ LONGEST_MESSAGE }
        ensures { IfOk result (λ message. message ≡ bytes.now) }
    {
        let bytes = Bytes::copied_from(alloc, bytes)?;
        Ok(Message { bytes })
    }

    /// The message's bytes.
    pub fn as_slice(&self) -> &[u8]
        ensures bytes { result.now ≡ self.now }
        ensures short { length self.now ≤ LONGEST_MESSAGE }
    {
        self.bytes.as_slice()
    }

    /// The number of bytes.
    pub fn len(&self) -> usize
        ensures { result ≡ length self.now }
    {
        self.bytes.len()
    }

    /// Whether there is no byte.
    pub fn is_empty(&self) -> bool
        ensures { IsTrue result ↔ (self.now ≡ []) }
    {
        self.bytes.is_empty()
    }

    /// The bytes of the message, given back.
    pub fn into_bytes(self) -> Bytes
        ensures { result ≡ self }
    {
        self.bytes
    }
}

impl PartialEq for Message {
    ghost use Rattle.std.proofs.Common.{rules};
    ghost use Rattle.std.specs.Cmp.Rules.{comparing};
    ghost use Rattle.std.specs.Str.{bytes_eq};

    ghost eq = { bytes_eq };

    ghost laws = { Prim.search (comparing, rules) };

    fn eq(&self, other: &Message) -> bool {
        self.bytes == other.bytes
    }
}

impl Eq for Message {
    ghost use Rattle.std.proofs.Common.{rules};
    ghost use Rattle.std.specs.Cmp.Rules.{comparing};

    ghost laws = { Prim.search (comparing, rules) };
}

impl Copied for Message {
    fn copied(&self, alloc: Global) -> Result<Message, AllocError> {
        Message::copied_from(alloc, self.as_slice())
    }
}
