ghost use Rattle.std.specs.Prelude.{◌≡◌, ◌++◌, OnOk, string_bytes};
ghost use Rattle.rt_report.specs.ReplicaTexts.{built_text, consumed_text, loaded_text, stands_text};
ghost use Rattle.rt_report.specs.States.{state_text};

use crate::heads::write_told;
use rt_base::Offset;
use rt_events::Event;
use rt_model::ReplicaState;
use std::alloc::AllocError;

/// `consumed sK P/Q cur=X rows=Y STATE`
pub(crate) fn write_consumed(
    out: &mut String,
    event: &Event,
    cur: Offset,
    rows: u32,
    state: ReplicaState,
) -> Result<(), AllocError>
    ensures { OnOk result (string_bytes out.new ≡ string_bytes out.old ++ consumed_text event.now cur rows state) }
{
    write_told(out, event)?;
    let state = state_name(state);
    write!(out, " cur={} rows={rows} {state}\n", cur.0)
}

/// `forced sK P/Q STATE`, `stopped sK P/Q STATE` or `moved sK P/Q STATE`
pub(crate) fn write_stands(
    out: &mut String,
    event: &Event,
    state: ReplicaState,
) -> Result<(), AllocError>
    ensures { OnOk result (string_bytes out.new ≡ string_bytes out.old ++ stands_text event.now state) }
{
    write_told(out, event)?;
    let state = state_name(state);
    write!(out, " {state}\n")
}

/// `built sK P/Q rows=Y STATE`
pub(crate) fn write_built(
    out: &mut String,
    event: &Event,
    rows: u32,
    state: ReplicaState,
) -> Result<(), AllocError>
    ensures { OnOk result (string_bytes out.new ≡ string_bytes out.old ++ built_text event.now rows state) }
{
    write_told(out, event)?;
    let state = state_name(state);
    write!(out, " rows={rows} {state}\n")
}

/// `loaded sK P/Q rows=Y`
pub(crate) fn write_loaded(out: &mut String, event: &Event, rows: u32) -> Result<(), AllocError>
    ensures { OnOk result (string_bytes out.new ≡ string_bytes out.old ++ loaded_text event.now rows) }
{
    write_told(out, event)?;
    write!(out, " rows={rows}\n")
}

/// A state of a replica, as reports name it.
pub(crate) fn state_name(state: ReplicaState) -> &'static str
    ensures { result.now ≡ state_text state }
{
    match state {
        ReplicaState::InitialConsuming => "INITIAL_CONSUMING",
        ReplicaState::CatchingUp => "CATCHING_UP",
        ReplicaState::Holding => "HOLDING",
        ReplicaState::ConsumingToOnline => "CONSUMING_TO_ONLINE",
        ReplicaState::Retaining => "RETAINING",
        ReplicaState::Retained => "RETAINED",
        ReplicaState::Committing => "COMMITTING",
        ReplicaState::Committed => "COMMITTED",
        ReplicaState::Discarded => "DISCARDED",
    }
}
