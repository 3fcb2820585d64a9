ghost use Rattle.rt_lines.specs.Reading.{ReadsAll};

use rt_base::Source;
use rt_base::limits::MOST_INPUT;
use rt_lists::Bytes;
use std::alloc::Global;

/// How many bytes are read at once.
const PIECE: usize = 8_192;

/// Why an input was not read to its end.
#[derive(Clone, Copy)]
pub enum ReadStop {
    /// The source failed; its count of faults rose.
    Failed,
    /// The source gives more bytes than an input may have.
    TooLong,
    /// Memory ran out.
    Memory,
}

/// The whole input of a source, up to its end. At most one byte beyond the limit of an input is read.
pub fn read_all<S: Source>(alloc: Global, source: &mut S) -> Result<Bytes, ReadStop>
    ensures { ReadsAll (S.meaning source.old) (S.meaning source.new) result }
{
    let mut input = Bytes::new(alloc);
    let mut piece = [0; PIECE];
    'pieces: loop {
        if input.len() > MOST_INPUT {
            return Err(ReadStop::TooLong);
        }
        let room = PIECE.min(MOST_INPUT + 1 - input.len());
        let count = match source.read(&mut piece[..room]) {
            Ok(count) => count,
            Err(_) => return Err(ReadStop::Failed),
        };
        if count == 0 {
            return Ok(input);
        }
        match input.extend(&piece[..count]) {
            Ok(()) => {}
            Err(_) => return Err(ReadStop::Memory),
        }
    }
}
