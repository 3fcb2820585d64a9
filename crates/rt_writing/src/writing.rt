ghost use Rattle.rt_writing.specs.Writing.{WritesAll};

use rt_base::{Failed, Sink};

/// Offers a piece whole, and what is left of it after each short write. `Failed` comes only where the sink's count of faults
/// rose; a front of the piece was taken then.
pub fn write_all<K: Sink>(sink: &mut K, piece: &[u8]) -> Result<(), Failed>
    ensures { WritesAll (K.meaning sink.old) (K.meaning sink.new) piece.now result }
{
    let mut done = 0;
    while done < piece.len() {
        let (_, rest) = piece.split_at(done);
        done += sink.write(rest)?;
    }
    Ok(())
}
