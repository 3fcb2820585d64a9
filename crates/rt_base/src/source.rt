ghost use Rattle.rt_base.specs.Source.{Reads, SourceMeaning};

use crate::Failed;

/// Where bytes come from: a file, a terminal, or bytes in memory.
pub trait Source {
    /// What is left to read, where that is told, and how many faults were met.
    ghost meaning: { Self → SourceMeaning };

    /// Fills the front of a piece with the next bytes, and answers how many. None for a piece that
    /// isn't empty is the end. `Failed` comes only where the count of faults rose in the call, and
    /// then nothing was read.
    fn read(&mut self, into: &mut [u8]) -> Result<usize, Failed>
        ensures { Reads (meaning self.old) (meaning self.new) into.new result };
}
