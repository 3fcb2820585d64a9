ghost use Rattle.std.specs.Prelude.{◌≡◌, ◌≤◌, [], false, Ok, Err, IfOk, IfSome, string_bytes};
ghost use Rattle.rt_base.specs.declared.limits.TheConstants.{MOST_PARTITIONS};
ghost use Rattle.rt_lines.specs.Header.{Says};
ghost use Rattle.rt_macros.specs.Doing.{Does, DoesText};
ghost use Rattle.rt_macros.specs.Settling.{Settles};
ghost use Rattle.rt_macros.specs.declared.settling.TheConstants.{MOST_ROUNDS};
ghost use Rattle.rt_model.specs.Checked.{IsQuery};
ghost use Rattle.rt_model.specs.Setup.{IsSetup};
ghost use Rattle.rt_play.specs.Generating.{Asks, AsksQuery, RunsGenerated, SettlesAndAsks, TellsGenerated, generated_setup, header_text, query_said, setup_read};
ghost use Rattle.rt_lines.specs.Header.{header_of};
ghost use Rattle.rt_lines.specs.Lines.{script_lines};
ghost use Rattle.rt_script.specs.declared.line.Line.TheVariants as line;
ghost use Rattle.rt_state.specs.Start.{start};

use crate::PlayEnd;
use crate::generated_report::write_report;
use crate::generated_rows::produce_rows;
use crate::running::fault;
use rt_base::limits::{MOST_PARTITIONS, MOST_ROWS};
use rt_base::{Sink, Which};
use rt_desk::play_query;
use rt_lines::{Lines, PlayFault, read_header};
use rt_macros::{MOST_ROUNDS, settle};
use rt_model::{Query, Setup};
use rt_pause::Pause;
use rt_script::{Line, Macro, read_line};
use rt_world::{Refusal, World};
use std::alloc::{AllocError, Global};

/// What a generated run is asked for.
#[derive(Clone, Copy)]
pub(crate) struct Generated {
    pub(crate) seed: u64,
    pub(crate) partitions: u64,
    pub(crate) rows: u64,
}

/// The query of a generated run.
const QUERY: &str = "query SELECT k, COUNT(*), SUM(v) FROM t GROUP BY k LIMIT 16";

/// Has a cluster take generated rows and settle, and writes how far each partition is committed, and an answer.
pub(crate) fn generate<K: Sink>(
    alloc: Global,
    asked: Generated,
    sink: &mut K,
) -> Result<PlayEnd, PlayFault>
    ensures tells { TellsGenerated asked (K.meaning sink.old) (K.meaning sink.new) result }
    ensures used { result ≡ Err PlayFault.Usage → ⊥ }
{
    match generated_setup(alloc, asked) {
        Ok(setup) => generate_from(alloc, setup, asked, sink),
        Err(fault) => Err(fault),
    }
}

// Runs in a cluster.
fn generate_from<K: Sink>(
    alloc: Global,
    setup: Setup,
    asked: Generated,
    sink: &mut K,
) -> Result<PlayEnd, PlayFault>
    requires setup { IsSetup setup }
    requires is { generated_setup asked ≡ Ok setup }
    requires some { 1 ≤ asked.partitions }
    requires few { asked.partitions ≤ MOST_PARTITIONS }
    ensures { TellsGenerated asked (K.meaning sink.old) (K.meaning sink.new) result }
{
    match World::make(alloc, setup) {
        Ok(mut world) => generate_in(alloc, &mut world, asked, sink),
        Err(_) => Err(PlayFault::Memory),
    }
}

// Runs from the first world of a cluster.
fn generate_in<K: Sink>(
    alloc: Global,
    world: &mut World,
    asked: Generated,
    sink: &mut K,
) -> Result<PlayEnd, PlayFault>
    requires first { world.old ≡ record { state = start world.old.state.setup; spent = false } }
    requires is { generated_setup asked ≡ Ok world.old.state.setup }
    requires some { 1 ≤ asked.partitions }
    requires few { asked.partitions ≤ MOST_PARTITIONS }
    ensures { TellsGenerated asked (K.meaning sink.old) (K.meaning sink.new) result }
{
    let mut answer = String::new(alloc);
    match run(alloc, world, asked, &mut answer) {
        Ok(()) => {}
        Err(refusal) => return Err(fault(0, refusal)),
    }
    match write_report(alloc, world, asked.partitions as u32, answer.as_str(), sink) {
        Ok(()) => Ok(PlayEnd {
            lines: asked.partitions + 1,
        }),
        Err(fault) => Err(fault),
    }
}

// The cluster of a generated run, within the limits.
fn generated_setup(alloc: Global, asked: Generated) -> Result<Setup, PlayFault>
    ensures setup { IfOk result IsSetup }
    ensures says { Says (generated_setup asked) result }
    ensures some { IfOk result (λ setup. 1 ≤ asked.partitions) }
    ensures few { IfOk result (λ setup. asked.partitions ≤ MOST_PARTITIONS) }
{
    if asked.partitions < 1 || asked.partitions > u64::from(MOST_PARTITIONS) {
        return Err(PlayFault::Limit(Which::Partitions));
    }
    if asked.rows > u64::from(MOST_ROWS) {
        return Err(PlayFault::Limit(Which::Rows));
    }
    read_setup(alloc, asked.partitions)
}

fn read_setup(alloc: Global, partitions: u64) -> Result<Setup, PlayFault>
    ensures setup { IfOk result IsSetup }
    ensures says { Says (setup_read (header_of (script_lines (header_text partitions)))) result }
{
    let header = header_text(alloc, partitions)?;
    let mut lines = Lines::make(header.as_bytes());
    read_header(alloc, &mut lines)
}

fn header_text(alloc: Global, partitions: u64) -> Result<String, AllocError>
    ensures { IfOk result (λ text. string_bytes text ≡ header_text partitions) }
{
    let mut text = String::new(alloc);
    text.push_str(
        "schema {\"schemaName\":\"t\",\"dimensionFieldSpecs\":[{\"name\":\"k\",\"dataType\":\"STRING\"}],\"metricFieldSpecs\":[{\"name\":\"v\",\"dataType\":\"LONG\"}]}\n",
    )?;
    text.push_str(
        "table {\"tableName\":\"t\",\"tableType\":\"REALTIME\",\"segmentsConfig\":{\"replication\":\"2\"},\"tableIndexConfig\":{\"invertedIndexColumns\":[\"k\"],\"streamConfigs\":{\"realtime.segment.flush.threshold.rows\":\"1000\",\"realtime.segment.flush.threshold.time\":\"1h\"}}}\n",
    )?;
    write!(
        &mut text,
        "cluster servers=3 controllers=2 partitions={partitions} start=1700000000000 grace=0\n"
    )?;
    Ok(text)
}

// Produces the rows, settles and asks.
#[tactic(auto, using(rt_macros::proofs::Doing::does_then, rt_macros::proofs::Doing::does_refused, rt_macros::proofs::Doing::does_told))]
fn run(
    alloc: Global,
    world: &mut World,
    asked: Generated,
    answer: &mut String,
) -> Result<(), Refusal>
    requires unspent { world.old.spent ≡ false }
    requires empty { string_bytes answer.old ≡ [] }
    requires some { 1 ≤ asked.partitions }
    requires few { asked.partitions ≤ MOST_PARTITIONS }
    ensures { DoesText (RunsGenerated asked) world.old.state world.new (string_bytes answer.new) result }
{
    let _last = produce_rows(alloc, world, asked)?;
    settle_and_ask(alloc, world, answer)
}

#[tactic(auto, using(rt_macros::proofs::Doing::does_then, rt_macros::proofs::Doing::does_refused, rt_macros::proofs::Doing::does_told))]
fn settle_and_ask(alloc: Global, world: &mut World, answer: &mut String) -> Result<(), Refusal>
    requires unspent { world.old.spent ≡ false }
    requires empty { string_bytes answer.old ≡ [] }
    ensures { DoesText SettlesAndAsks world.old.state world.new (string_bytes answer.new) result }
{
    let _quiet = settle_unpaused(alloc, world)?;
    ask(alloc, world, answer)
}

// Settles the cluster; no line pauses a generated run.
fn settle_unpaused(alloc: Global, world: &mut World) -> Result<bool, Refusal>
    requires { world.old.spent ≡ false }
    ensures { Does (Settles false MOST_ROUNDS) world.old.state world.new result }
{
    let pause = Pause::make();
    settle(alloc, world, &pause, MOST_ROUNDS)
}

fn ask(alloc: Global, world: &mut World, answer: &mut String) -> Result<(), Refusal>
    requires unspent { world.old.spent ≡ false }
    requires empty { string_bytes answer.old ≡ [] }
    ensures { DoesText Asks world.old.state world.new (string_bytes answer.new) result }
{
    let setup = world.setup();
    let said = read_line(alloc, &setup.schema, &setup.table.name, QUERY.as_bytes())?;
    ask_said(alloc, world, query_said(said), answer)
}

fn ask_said(
    alloc: Global,
    world: &mut World,
    said: Option<Query>,
    answer: &mut String,
) -> Result<(), Refusal>
    requires unspent { world.old.spent ≡ false }
    requires fits { IfSome said (IsQuery world.old.state.setup.schema) }
    requires empty { string_bytes answer.old ≡ [] }
    ensures { DoesText (AsksQuery said) world.old.state world.new (string_bytes answer.new) result }
{
    match said {
        Some(query) => play_query(alloc, world, query, answer),
        None => Err(Refusal::NothingToDo),
    }
}

// The query that a line says.
fn query_said(said: Option<Line>) -> Option<Query>
    ensures { result ≡ query_said said }
{
    match said {
        Some(Line::Macro(said)) => query_in(said),
        other => {
            drop(other);
            None
        }
    }
}

fn query_in(said: Macro) -> Option<Query>
    ensures { result ≡ query_said (Some (line.Macro said)) }
{
    match said {
        Macro::Query { query } => Some(query),
        other => {
            drop(other);
            None
        }
    }
}
