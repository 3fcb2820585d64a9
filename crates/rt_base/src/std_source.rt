ghost use Rattle.std.specs.Prelude.{◌≡◌, OnOk, OnErr};
ghost use Rattle.std.specs.Io.KnownBytes.{ReadConsumes};
ghost use Rattle.rt_base.specs.Source.{Reads, one_more};
ghost use Rattle.rt_base.specs.StdSource.{reading_meaning};

use crate::{Failed, Source};
use std::io::Read;
use std::marker::Model;

/// A source over a reader of the standard library. It tells no bytes, and counts the reader's errors
/// up to the last number of 64 bits.
#[derive(Drop)]
pub struct StdSource<R> {
    inner: R,
    faults: u64,
}

impl<R> Model for StdSource<R> {
    ghost use Rattle.rt_base.specs.StdSource.{Reading};

    ghost Value = { Reading R };

    ghost view = { λ s. record { inner = s.inner; faults = s.faults } };
}

impl<R> StdSource<R> {
    /// A source over this reader.
    pub fn make(inner: R) -> StdSource<R>
        ensures { result ≡ record { inner = inner; faults = 0 } }
    {
        StdSource { inner, faults: 0 }
    }
}

impl<R: Read> Source for StdSource<R> {
    ghost meaning = { λ s. reading_meaning s.faults };

    /// Reads once from the reader.
    fn read(&mut self, into: &mut [u8]) -> Result<usize, Failed>
        ensures source { Reads (reading_meaning self.old.faults) (reading_meaning self.new.faults) into.new result }
        ensures reader { ReadConsumes (R.remaining self.old.inner) (R.remaining self.new.inner) result into.new }
        ensures read { OnOk result (self.new.faults ≡ self.old.faults) }
        ensures failed { OnErr result (self.new.faults ≡ one_more self.old.faults) }
    {
        match self.inner.read(into) {
            Ok(count) => Ok(count),
            Err(_) => {
                self.faults = self.faults.saturating_add(1);
                Err(Failed)
            }
        }
    }
}
