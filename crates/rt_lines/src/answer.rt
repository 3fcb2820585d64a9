ghost use Rattle.std.specs.Prelude.{◌≡◌, ◌++◌, OnOk, IfOk, map, string_bytes};
ghost use Rattle.rt_lines.specs.Answer.{answer_bytes, array_of, missing_field, missing_text, ranges_field, rows_field};

use crate::json::{Json, write_array, write_comma};
use rt_base::{Partition, Range, Sequence};
use rt_model::{Answer, ResultRow};
use std::alloc::{AllocError, Global};

/// An answer as JSON, with no space outside its texts.
pub fn answer_text(alloc: Global, answer: &Answer) -> Result<String, AllocError>
    ensures { IfOk result (λ text. string_bytes text ≡ answer_bytes answer.now) }
{
    let mut text = String::new(alloc);
    write_answer(&mut text, answer)?;
    Ok(text)
}

// Adds an answer as JSON at the end of a text.
fn write_answer(out: &mut String, answer: &Answer) -> Result<(), AllocError>
    ensures { OnOk result (string_bytes out.new ≡ string_bytes out.old ++ answer_bytes answer.now) }
{
    write_ranges(out, answer.ranges.as_slice())?;
    write_missing(out, answer.missing.as_slice())?;
    write_rows(out, answer.rows.as_slice())?;
    out.push_str("}")?;
    Ok(())
}

fn write_ranges(out: &mut String, ranges: &[(Partition, Range)]) -> Result<(), AllocError>
    ensures { OnOk result (string_bytes out.new ≡ string_bytes out.old ++ ranges_field ranges.now) }
{
    out.push_str("{\"ranges\":")?;
    write_array(out, ranges)
}

fn write_missing(
    out: &mut String,
    missing: &[(Partition, Option<Sequence>)],
) -> Result<(), AllocError>
    ensures { OnOk result (string_bytes out.new ≡ string_bytes out.old ++ missing_field missing.now) }
{
    out.push_str(",\"missing\":")?;
    write_segments(out, missing)?;
    Ok(())
}

// The array of what is missing.
fn write_segments(
    out: &mut String,
    missing: &[(Partition, Option<Sequence>)],
) -> Result<(), AllocError>
    ensures { OnOk result (string_bytes out.new ≡ string_bytes out.old ++ array_of (map missing_text missing.now)) }
{
    out.push('[')?;
    for (place, item) in missing.iter().enumerate() {
        write_comma(out, place)?;
        item.write(out)?;
    }
    out.push(']')
}

fn write_rows(out: &mut String, rows: &[ResultRow]) -> Result<(), AllocError>
    ensures { OnOk result (string_bytes out.new ≡ string_bytes out.old ++ rows_field rows.now) }
{
    out.push_str(",\"rows\":")?;
    write_array(out, rows)
}
