ghost use Rattle.std.specs.Prelude.{◌≡◌, OnOk, OnErr};
ghost use Rattle.std.specs.Io.KnownBytes.{Keeps, WriteAppends};
ghost use Rattle.rt_base.specs.Sink.{Writes};
ghost use Rattle.rt_base.specs.Source.{one_more};
ghost use Rattle.rt_base.specs.StdSink.{writing_meaning};

use crate::{Failed, Sink};
use std::io::Write;
use std::marker::Model;

/// A sink over a writer of the standard library. It tells no bytes, and counts the writer's errors up
/// to the last number of 64 bits. That the writer takes nothing of a piece that isn't empty is one of
/// them.
#[derive(Drop)]
pub struct StdSink<W> {
    inner: W,
    faults: u64,
}

impl<W> Model for StdSink<W> {
    ghost use Rattle.rt_base.specs.StdSink.{Writing};

    ghost Value = { Writing W };

    ghost view = { λ s. record { inner = s.inner; faults = s.faults } };
}

impl<W> StdSink<W> {
    /// A sink over this writer.
    pub fn make(inner: W) -> StdSink<W>
        ensures { result ≡ record { inner = inner; faults = 0 } }
    {
        StdSink { inner, faults: 0 }
    }
}

impl<W: Write> StdSink<W> {
    /// Has the writer pass on what it holds back. An error of the writer counts as one of a write.
    pub fn finish(&mut self) -> Result<(), Failed>
        ensures writer { Keeps (W.contents self.old.inner) (W.contents self.new.inner) }
        ensures done { OnOk result (self.new.faults ≡ self.old.faults) }
        ensures failed { OnErr result (self.new.faults ≡ one_more self.old.faults) }
    {
        match self.inner.flush() {
            Ok(()) => Ok(()),
            Err(_) => {
                self.faults = self.faults.saturating_add(1);
                Err(Failed)
            }
        }
    }
}

impl<W: Write> Sink for StdSink<W> {
    ghost meaning = { λ s. writing_meaning s.faults };

    /// Writes once to the writer.
    fn write(&mut self, piece: &[u8]) -> Result<usize, Failed>
        ensures sink { Writes (writing_meaning self.old.faults) (writing_meaning self.new.faults) piece.now result }
        ensures writer { WriteAppends (W.contents self.old.inner) (W.contents self.new.inner) result piece.now }
        ensures written { OnOk result (self.new.faults ≡ self.old.faults) }
        ensures failed { OnErr result (self.new.faults ≡ one_more self.old.faults) }
    {
        match self.inner.write(piece) {
            Ok(count) if count > 0 || piece.is_empty() => Ok(count),
            _ => {
                self.faults = self.faults.saturating_add(1);
                Err(Failed)
            }
        }
    }
}
