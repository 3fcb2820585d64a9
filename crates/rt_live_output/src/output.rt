ghost use Rattle.std.specs.Prelude.{◌≡◌, ◌<◌, ◌^◌, ◌++◌, OnOk, length, string_bytes};
ghost use Rattle.rt_live_output.specs.Texts.{numbered_answer, numbered_end, output_text, texts};

use rt_base::{Offset, Partition};
use rt_model::Answer;
use rt_report::{write_answer, write_end};
use std::alloc::{AllocError, Global};

/// Adds the answers, in the order of their queries, and then how far each partition is committed, at the end of a text.
pub fn write_output(
    alloc: Global,
    out: &mut String,
    answers: &[Answer],
    ends: &[Offset],
) -> Result<(), AllocError>
    requires { length ends.now < 2 ^ 32 }
    ensures { OnOk result (string_bytes out.new ≡ string_bytes out.old
        ++ output_text answers.now ends.now) }
{
    write_answers(alloc, out, answers)?;
    write_ends(out, ends)
}

fn write_answers(alloc: Global, out: &mut String, answers: &[Answer]) -> Result<(), AllocError>
    ensures { OnOk result (string_bytes out.new ≡ string_bytes out.old
        ++ texts numbered_answer answers.now) }
{
    for answer in answers {
        write_answer(alloc, out, answer)?;
    }
    Ok(())
}

fn write_ends(out: &mut String, ends: &[Offset]) -> Result<(), AllocError>
    requires { length ends.now < 2 ^ 32 }
    ensures { OnOk result (string_bytes out.new ≡ string_bytes out.old
        ++ texts numbered_end ends.now) }
{
    for (partition, end) in ends.iter().enumerate() {
        write_end(out, Partition(partition as u32), *end)?;
    }
    Ok(())
}
