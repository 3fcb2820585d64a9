ghost use Rattle.std.specs.Prelude.{◌≡◌, ◌∷◌, IfOk};
ghost use Rattle.rt_lines.specs.Header.{Says, then_ok};
ghost use Rattle.rt_live_input.specs.ChaosWords.{chaos_at};
ghost use Rattle.rt_live_input.specs.Gathering.{AddsLine, behind_from, behind_of, empty, gathered};
ghost use Rattle.rt_live_input.specs.Input.{IsInput, ReadsInput, calm};
ghost use Rattle.rt_model.specs.Setup.{IsSetup};

use crate::chaos::{Chaos, read_chaos};
use crate::entry::{Entry, read_entry};
use crate::input::Input;
use rt_lines::{Lines, PlayFault, after_prefix, read_header};
use rt_lists::Items;
use rt_model::Setup;
use std::alloc::Global;

/// Reads the input of a running cluster: the three header lines, a chaos line where there is one, and then its rows and
/// its queries in any order.
///
/// The first line that is missing or outside the grammar is `BadLine`; a partition or a server that isn't below its
/// count is `NoSuchNode`; a text that is no query is `Query` with the number of its refusal. `Limit` names what of the
/// header, or which message, goes beyond its limit. Upsert settings are not read.
pub fn read_input(alloc: Global, text: &[u8]) -> Result<Input, PlayFault>
    // What is read, or where and why it is refused, is said by the bytes alone.
    ensures reads { ReadsInput text.now result }

    // The cluster is within its limits, and each row, query and node is one of it.
    ensures fits { IfOk result IsInput }
{
    let mut lines = Lines::make(text);
    match read_header(alloc, &mut lines) {
        Ok(setup) => read_behind(alloc, setup, &mut lines),
        Err(fault) => Err(fault),
    }
}

// Reads what stands behind a header.
fn read_behind(alloc: Global, setup: Setup, lines: &mut Lines<'_>) -> Result<Input, PlayFault>
    requires { IsSetup setup }
    ensures { Says (behind_of setup lines.old.lines) result }
{
    let input = empty(alloc, setup);
    read_first(alloc, input, lines)
}

// The input of a cluster to which nothing comes.
fn empty(alloc: Global, setup: Setup) -> Input
    ensures { result ≡ empty setup calm }
{
    Input {
        setup,
        chaos: Chaos::none(),
        rows: Items::new(alloc),
        queries: Items::new(alloc),
    }
}

// Reads the first line, which may be a chaos line, and those behind it.
fn read_first(alloc: Global, input: Input, lines: &mut Lines<'_>) -> Result<Input, PlayFault>
    requires { IsSetup input.setup }
    ensures { Says (behind_from input lines.old.lines) result }
{
    let Some((number, line)) = lines.next() else {
        return Ok(input);
    };
    match after_prefix(line, b"chaos ".as_slice()) {
        Some(text) => read_disturbed(alloc, input, number, text, lines),
        None => read_calm(alloc, input, number, line, lines),
    }
}

// Reads a chaos line by what follows its first word, and the lines behind it.
#[tactic(auto, using(crate::proofs::Gathered::says_stop, crate::proofs::Gathered::says_then))]
fn read_disturbed(
    alloc: Global,
    input: Input,
    number: u64,
    text: &[u8],
    lines: &mut Lines<'_>,
) -> Result<Input, PlayFault>
    requires { IsSetup input.setup }
    ensures { Says (then_ok (chaos_at input.setup number text.now) (λ chaos. gathered (record input { chaos = chaos }) lines.old.lines)) result }
{
    let mut input = input;
    match read_chaos(&input.setup, number, text) {
        Ok(chaos) => {
            input.chaos = chaos;
            read_lines(alloc, input, lines)
        }
        Err(fault) => Err(fault),
    }
}

// Reads a line that is no chaos line, and the lines behind it.
#[tactic(auto, using(crate::proofs::Gathered::calm_goes_on, crate::proofs::Gathered::calm_stops))]
fn read_calm(
    alloc: Global,
    input: Input,
    number: u64,
    line: &[u8],
    lines: &mut Lines<'_>,
) -> Result<Input, PlayFault>
    requires { IsSetup input.setup }
    ensures { Says (gathered input ((number, line.now) ∷ lines.old.lines)) result }
{
    let mut input = input;
    match add_line(alloc, &mut input, number, line) {
        Ok(()) => read_lines(alloc, input, lines),
        Err(fault) => Err(fault),
    }
}

// Adds what the lines that are left give.
fn read_lines(alloc: Global, input: Input, lines: &mut Lines<'_>) -> Result<Input, PlayFault>
    requires { IsSetup input.setup }
    ensures { Says (gathered input lines.old.lines) result }
{
    let mut input = input;
    while let Some((number, line)) = lines.next() {
        match add_line(alloc, &mut input, number, line) {
            Ok(()) => {}
            Err(fault) => return Err(fault),
        }
    }
    Ok(input)
}

// Adds what a line gives.
fn add_line(alloc: Global, input: &mut Input, number: u64, line: &[u8]) -> Result<(), PlayFault>
    requires { IsSetup input.old.setup }
    ensures { AddsLine input.old input.new (number, line.now) result }
{
    match read_entry(alloc, &input.setup, number, line) {
        Ok(Entry::Row(row)) => input.rows.push(row)?,
        Ok(Entry::Query(query)) => input.queries.push(query)?,
        Err(fault) => return Err(fault),
    }
    Ok(())
}
