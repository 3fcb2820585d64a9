//! A replica's rows by column, and the messages that they take.
ghost use Rattle.std.specs.Prelude.{◌≡◌, ◌-◌, ◌<◌, ◌≤◌, min, length, Some, None, IfErr, OnOk, OnErr};
ghost use Rattle.rt_schema.specs.Schema.{IsSchema};
ghost use Rattle.rt_schema.specs.Row.{row_of};
ghost use Rattle.rt_mutable.specs.Consuming.{after_message};
ghost use Rattle.rt_consumer.specs.Consumer.{AreSettings, HaveColumns};
ghost use Rattle.rt_consumer.specs.declared.phase.Phase.TheVariants as phase;
ghost use Rattle.rt_consumer.specs.declared.refused.ReplicaRefused.TheVariants.{NotDue};
ghost use Rattle.rt_consumer.specs.declared.stage.Stage.TheVariants.{InitialConsuming};
ghost use Rattle.rt_consumer.specs.Requests.{forced_at};
ghost use Rattle.rt_consumer.specs.Batch.{asked_at, row_limit, filled, is_timed_out, after_batch, taken_at};

use crate::{ReplicaRefused, Settings, Stage};
use rt_base::limits::{LONGEST_MESSAGE, MOST_ROWS};
use rt_base::{Moment, Offset};
use rt_model::Reason;
use rt_mutable::MutableSegment;
use rt_schema::{RowReader, Schema};
use rt_stream::Messages;
use std::alloc::{AllocError, Global};
use std::mem;

/// A replica's rows by column, and what it does with them.
#[derive(Drop)]
pub struct Unsealed {
    pub rows: MutableSegment,
    pub stage: Stage,
}

impl Unsealed {
    /// How many of at most `max` messages the next batch may have; None where the stage takes no messages.
    pub fn asked(&self, max: u32) -> Option<u32>
        ensures { result ≡ asked_at self.now.stage self.now.rows.end max }
    {
        match &self.stage {
            Stage::InitialConsuming => Some(max),
            Stage::CatchingUp { target, .. } => Some(up_to(*target, self.rows.end(), max)),
            Stage::ConsumingToOnline { end, .. } => Some(up_to(*end, self.rows.end(), max)),
            Stage::Holding(_) => None,
            Stage::Retaining(_) => None,
            Stage::Building(_) => None,
            Stage::Starting { .. } => None,
            Stage::Uploading { .. } => None,
            Stage::Ending { .. } => None,
        }
    }

    /// Ends the consuming, in INITIAL_CONSUMING past the start.
    pub(crate) fn force(&mut self) -> Result<(), ReplicaRefused>
        ensures ok { OnOk result (forced_at self.old.rows self.old.stage ≡ Some (phase.Unsealed self.new)) }
        ensures due { IfErr result (λ e. (forced_at self.old.rows self.old.stage ≡ None) × (e ≡ NotDue)) }
        ensures err { OnErr result (self.new ≡ self.old) }
    {
        match &self.stage {
            Stage::InitialConsuming if self.rows.start() < self.rows.end() => {}
            _ => return Err(ReplicaRefused::NotDue),
        }
        self.stage = Stage::Holding(Reason::Force);
        Ok(())
    }

    /// Takes messages until its batch ends. Where memory is refused, all is as before.
    pub(crate) fn take(
        &mut self,
        alloc: Global,
        settings: &Settings,
        began: Moment,
        now: Moment,
        messages: &Messages,
    ) -> Result<(), AllocError>
        requires settings { AreSettings settings.now }
        requires columns { HaveColumns settings.now self.old.rows }
        ensures ok { OnOk result (self.new ≡ taken_at settings.now began now self.old messages.now) }
        ensures err { OnErr result (self.new ≡ self.old) }
    {
        let limit = self.stage.row_limit(settings);
        fill(alloc, settings, limit, &mut self.rows, messages)?;
        let stage = mem::replace(&mut self.stage, Stage::InitialConsuming);
        self.stage = after_batch(stage, settings, began, now, &self.rows);
        Ok(())
    }
}

impl Stage {
    fn row_limit(&self, settings: &Settings) -> u32
        requires { settings.now.rows ≤ MOST_ROWS }
        ensures limit { result ≡ row_limit settings.now self.now }
        ensures most { result ≤ MOST_ROWS }
    {
        match self {
            Stage::InitialConsuming => settings.rows,
            _ => MOST_ROWS,
        }
    }
}

/// How many of at most `max` messages stand before an offset.
fn up_to(target: Offset, cur: Offset, max: u32) -> u32
    ensures { result ≡ min max (target.0 - cur.0) }
{
    u64::from(max).min(target.0.saturating_sub(cur.0)) as u32
}

/// The stage after a batch.
fn after_batch(
    stage: Stage,
    settings: &Settings,
    began: Moment,
    now: Moment,
    rows: &MutableSegment,
) -> Stage
    ensures { result ≡ after_batch settings.now began now rows.now stage }
{
    match stage {
        Stage::InitialConsuming => after_messages(settings, began, now, rows),
        Stage::CatchingUp { target, reason } => {
            if rows.end() >= target {
                Stage::Holding(reason)
            } else {
                Stage::CatchingUp { target, reason }
            }
        }
        Stage::ConsumingToOnline { end, done } => {
            if rows.end() >= end {
                Stage::Retaining(done)
            } else {
                Stage::ConsumingToOnline { end, done }
            }
        }
        stage => stage,
    }
}

/// HOLDING at the row limit and past the time limit; else INITIAL_CONSUMING.
fn after_messages(settings: &Settings, began: Moment, now: Moment, rows: &MutableSegment) -> Stage
    ensures { result ≡ after_batch settings.now began now rows.now InitialConsuming }
{
    if rows.len() >= settings.rows {
        Stage::Holding(Reason::RowLimit)
    } else if is_timed_out(settings.millis, began, now, rows.start(), rows.end()) {
        Stage::Holding(Reason::TimeLimit)
    } else {
        Stage::InitialConsuming
    }
}

/// Whether the time limit has passed, past the start.
pub(crate) fn is_timed_out(
    millis: u64,
    began: Moment,
    now: Moment,
    start: Offset,
    cur: Offset,
) -> bool
    ensures { result ≡ is_timed_out millis began now start cur }
{
    now.0.saturating_sub(began.0) >= millis && start < cur
}

/// Adds the rows of messages, until so many rows are held. Where memory is refused, all is as before.
#[tactic(auto, using(crate::proofs::Filling::filled_step, crate::proofs::Filling::filled_full, crate::proofs::Filling::one_back, crate::proofs::Filling::all_back))]
fn fill(
    alloc: Global,
    settings: &Settings,
    limit: u32,
    rows: &mut MutableSegment,
    messages: &Messages,
) -> Result<(), AllocError>
    requires schema { IsSchema settings.now.schema }
    requires limit { limit ≤ MOST_ROWS }
    requires columns { HaveColumns settings.now rows.old }
    ensures ok { OnOk result (rows.new ≡ filled settings.now.schema limit rows.old messages.now) }
    ensures err { OnErr result (rows.new ≡ rows.old) }
{
    if rows.len() >= limit {
        return Ok(());
    }
    let before = rows.end();
    let mut reader = RowReader::new(alloc);
    for place in 0..messages.len() {
        match add(alloc, settings, &mut reader, rows, messages.get(place)) {
            Ok(()) => {}
            Err(refused) => {
                rows.take_back(before);
                return Err(refused);
            }
        }
        if rows.len() >= limit {
            return Ok(());
        }
    }
    Ok(())
}

/// Adds the message at the end: its row, where it is decodable. Where memory is refused, all is as before.
#[tactic(auto, using(crate::proofs::Rows::row_fits, crate::proofs::Rows::row_short))]
fn add(
    alloc: Global,
    settings: &Settings,
    reader: &mut RowReader,
    rows: &mut MutableSegment,
    message: &[u8],
) -> Result<(), AllocError>
    requires schema { IsSchema settings.now.schema }
    requires room { length rows.old.rows < MOST_ROWS }
    requires columns { HaveColumns settings.now rows.old }
    requires short { length message.now ≤ LONGEST_MESSAGE }
    ensures ok { OnOk result (rows.new ≡ after_message rows.old (row_of settings.now.schema message.now)) }
    ensures err { OnErr result (rows.new ≡ rows.old) }
{
    if rows.end().0 == u64::MAX {
        // No memory holds as many messages.
        return Err(AllocError);
    }
    match reader.read(alloc, &settings.schema, message)? {
        Some(row) => {
            rows.index(alloc, Some(&row))?;
            reader.keep(row);
            Ok(())
        }
        None => rows.index(alloc, None),
    }
}
