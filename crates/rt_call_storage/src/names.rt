ghost use Rattle.std.specs.Prelude.{IfOk};
ghost use Rattle.rt_names.specs.Minute.{IsMinute};

use rt_base::limits::LAST_MOMENT;
use rt_call_words::{Answer, Stop, Words};
use rt_lists::Text;
use rt_names::{NameRefused, SegmentName, minute_of};
use std::alloc::Global;

/// `name BYTES`: reads a segment's name.
pub fn name(alloc: Global, words: &mut Words, answer: &mut Answer) -> Result<(), Stop> {
    let bytes = words.bytes(alloc);
    words.ended()?;
    match str::from_utf8(bytes.as_slice()) {
        Ok(text) => read_name(alloc, text, answer),
        Err(_) => {
            answer.add("shape");
            Ok(())
        }
    }
}

fn read_name(alloc: Global, text: &str, answer: &mut Answer) -> Result<(), Stop> {
    match SegmentName::read(alloc, text) {
        Ok(name) => write_name(&name, answer),
        Err(NameRefused::Shape) => answer.add("shape"),
        Err(NameRefused::Memory) => return Err(Stop::Memory),
    }
    Ok(())
}

fn write_name(name: &SegmentName, answer: &mut Answer) {
    answer.add("ok ");
    answer.add(name.table.as_str());
    answer.add(" ");
    answer.count(name.partition);
    answer.add(" ");
    answer.count(name.sequence);
    answer.add(" ");
    write_minute(&name.minute, answer);
}

fn write_minute(minute: &[u8; 14], answer: &mut Answer) {
    match str::from_utf8(minute.as_slice()) {
        Ok(text) => answer.add(text),
        Err(_) => answer.add("?"),
    }
}

/// `minute MILLIS`: the minute of a moment.
pub fn minute(words: &mut Words, answer: &mut Answer) -> Result<(), Stop> {
    let millis = words.number();
    words.ended()?;
    write_minute(&minute_at(millis)?, answer);
    Ok(())
}

fn minute_at(millis: u64) -> Result<[u8; 14], Stop>
    ensures { IfOk result IsMinute }
{
    if millis > LAST_MOMENT {
        return Err(Stop::Refused);
    }
    Ok(minute_of(millis))
}

/// `format TABLE P Q MILLIS`: the name of a segment.
pub fn format(alloc: Global, words: &mut Words, answer: &mut Answer) -> Result<(), Stop> {
    let table = words.word();
    let partition = words.count();
    let sequence = words.count();
    let millis = words.number();
    words.ended()?;
    let minute = minute_at(millis)?;
    let name = SegmentName {
        table: Text::copied_from(alloc, table)?,
        partition,
        sequence,
        minute,
    };
    answer.add(name.format(alloc)?.as_str());
    Ok(())
}
