ghost use Rattle.rt_base.specs.Sink.{SinkMeaning, Writes};

use crate::Failed;

/// Where bytes go: a file, a terminal, or memory.
pub trait Sink {
    /// What was taken, where that is told, and how many faults were met.
    ghost meaning: { Self → SinkMeaning };

    /// Takes the front of a piece, and answers how many bytes: at least one of a piece that isn't
    /// empty. `Failed` comes only where the count of faults rose in the call, and then nothing was
    /// taken.
    fn write(&mut self, piece: &[u8]) -> Result<usize, Failed>
        ensures { Writes (meaning self.old) (meaning self.new) piece.now result };
}
