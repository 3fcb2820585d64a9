ghost use Rattle.std.specs.Prelude.{◌≡◌, true, IfOk, OnErr, OnOk};
ghost use Rattle.rt_model.specs.Setup.{IsSetup};
ghost use Rattle.rt_consumer.specs.Consumer.{IsConsumer, IsStage, IsBuilt, AreSettings, HaveColumns, started_of, at, cur, state_of};
ghost use Rattle.rt_consumer.specs.Replies.{is_answer, replied, turn_by, turned};
ghost use Rattle.rt_consumer.specs.Requests.{Does, Builds, forced, stopped, builds_at, filed, filed_at};

use crate::replies::{Turn, answered, extended};
use crate::{
    BuiltFile, CommittedFile, Discarded, Phase, ReplicaRefused, Settings, Stage, Unsealed, Waited,
};
use rt_base::{Moment, Offset, Partition, Sequence};
use rt_build::seal_as;
use rt_lists::Text;
use rt_model::{Reason, ReplicaState, Reply, ReplyStatus, SegMeta, Setup};
use rt_mutable::MutableSegment;
use rt_scan::SummarizedSegment;
use std::alloc::{AllocError, Global};
use std::mem;

/// All that a replica is.
#[derive(Drop)]
pub struct Consumer {
    pub settings: Settings,
    pub partition: Partition,
    pub sequence: Sequence,
    /// The segment's name.
    pub name: Text,
    /// The offset of the segment's first message.
    pub start: Offset,
    /// When it began to consume.
    pub started: Moment,
    pub phase: Phase,
    pub waited: Option<Waited>,
}

impl Consumer {
    /// A replica in INITIAL_CONSUMING, of the segment that its metadata opens. Fails only where memory is refused.
    pub fn start(
        alloc: Global,
        setup: &Setup,
        partition: Partition,
        sequence: Sequence,
        meta: &SegMeta,
        now: Moment,
    ) -> Result<Consumer, AllocError>
        requires { IsSetup setup.now }
        ensures { IfOk result (λ consumer. consumer ≡ started_of setup.now partition sequence meta.now now) }
    {
        let settings = Settings::of(alloc, setup)?;
        let name = meta.name.copy(alloc)?;
        let rows = MutableSegment::make_indexed(
            alloc,
            &setup.schema,
            meta.start,
            setup.table.indexed.as_slice(),
        )?;
        Ok(Consumer {
            settings,
            partition,
            sequence,
            name,
            start: meta.start,
            started: now,
            phase: Phase::Unsealed(Unsealed {
                rows,
                stage: Stage::InitialConsuming,
            }),
            waited: None,
        })
    }

    /// Where the replica stands.
    pub fn state(&self) -> ReplicaState
        ensures { result ≡ state_of self.now.phase }
    {
        self.phase.state()
    }

    /// The offset of the next message.
    pub fn cur(&self) -> Offset
        ensures { result ≡ cur self.now }
    {
        self.phase.cur()
    }

    /// Ends the consuming, in INITIAL_CONSUMING past the start. Takes no memory.
    pub fn force(&mut self) -> Result<(), ReplicaRefused>
        ensures { Does (forced self.old.phase) self.old self.new result }
    {
        match &mut self.phase {
            Phase::Unsealed(unsealed) => unsealed.force()?,
            _ => return Err(ReplicaRefused::NotDue),
        }
        self.waited = None;
        Ok(())
    }

    /// Drops the rows of a replica that is neither retained, committed nor discarded. Takes no memory.
    pub fn stop(&mut self) -> Result<(), ReplicaRefused>
        ensures { Does (stopped self.old.phase) self.old self.new result }
    {
        let cur = match &self.phase {
            Phase::Unsealed(unsealed) if unsealed.stage.stops() => unsealed.rows.end(),
            _ => return Err(ReplicaRefused::NotDue),
        };
        let stopped = Phase::Discarded(Discarded { cur, stopped: true });
        drop(mem::replace(&mut self.phase, stopped));
        self.waited = None;
        Ok(())
    }

    /// Seals the rows, in RETAINING for serving, and in COMMITTING for the upload. Where memory is refused, all is as
    /// before.
    pub fn build(&mut self, alloc: Global) -> Result<(), ReplicaRefused>
        requires { IsConsumer self.old }
        ensures { Builds self.old self.new result }
    {
        let Phase::Unsealed(unsealed) = &self.phase else {
            return Err(ReplicaRefused::NotDue);
        };
        if !unsealed.stage.builds() {
            return Err(ReplicaRefused::NotDue);
        }
        let file = seal(
            alloc,
            &self.settings,
            self.partition,
            self.sequence,
            unsealed,
        )?;
        let phase = mem::replace(&mut self.phase, gone(self.start));
        let (phase, filed) = with_file(alloc, phase, file);
        drop(mem::replace(&mut self.phase, phase));
        filed?;
        self.waited = None;
        Ok(())
    }

    /// Takes an answer, and tells whether it is the one that is waited for. Takes no memory; an answer to another
    /// number changes nothing.
    pub fn on_reply(&mut self, reply: Reply) -> bool
        ensures taken { result ≡ is_answer self.old.waited reply }
        ensures step { self.new ≡ replied self.old reply }
    {
        let Some(waited) = self.waited else {
            return false;
        };
        if !waited.number().is(reply.number) {
            return false;
        }
        let phase = mem::replace(&mut self.phase, gone(self.start));
        self.turn(turn_by(phase, waited, reply.status));
        true
    }

    /// Takes what an answer made of the replica: a change of state or stage ends the waiting.
    fn turn(&mut self, turn: Turn)
        ensures { self.new ≡ turned self.old turn }
    {
        let (phase, waited) = match turn {
            Turn::Stays(phase) => (phase, self.waited),
            Turn::Goes(phase) => (phase, None),
        };
        drop(mem::replace(&mut self.phase, phase));
        self.waited = waited;
    }
}

/// What the answer to a request makes of a replica.
fn turn_by(phase: Phase, waited: Waited, status: ReplyStatus) -> Turn
    ensures { result ≡ turn_by phase waited status }
{
    match waited {
        Waited::Step(_) => answered(phase, status),
        Waited::Extend(_) => extended(phase, status),
    }
}

/// What stands in a replica's place while it changes.
pub(crate) fn gone(cur: Offset) -> Phase {
    Phase::Discarded(Discarded {
        cur,
        stopped: false,
    })
}

/// The sealed rows, in the setup's format, with their summaries.
#[tactic(auto, using(crate::proofs::Rows::built_past, crate::proofs::Rows::indexed_names, crate::proofs::Rows::columns_sealed))]
fn seal(
    alloc: Global,
    settings: &Settings,
    partition: Partition,
    sequence: Sequence,
    unsealed: &Unsealed,
) -> Result<SummarizedSegment, AllocError>
    requires settings { AreSettings settings.now }
    requires columns { HaveColumns settings.now unsealed.now.rows }
    requires stage { IsStage settings.now partition sequence unsealed.now.rows unsealed.now.stage }
    requires due { builds_at unsealed.now.stage ≡ true }
    ensures { IfOk result (IsBuilt settings.now partition sequence unsealed.now.rows) }
{
    let file = seal_as(
        alloc,
        &unsealed.rows,
        partition,
        sequence,
        unsealed.rows.end(),
        settings.indexed.as_slice(),
        settings.format,
    )?;
    // That a file is whole is told with its rows.
    let _rows = file.rows();
    let file = SummarizedSegment::make(alloc, file)?;
    Ok(file)
}

/// A replica with its sealed rows. Where memory is refused, it is as before.
fn with_file(
    alloc: Global,
    phase: Phase,
    file: SummarizedSegment,
) -> (Phase, Result<(), AllocError>)
    ensures ok { OnOk result.1 (result.0 ≡ filed phase file) }
    ensures err { OnErr result.1 (result.0 ≡ phase) }
{
    match phase {
        Phase::Unsealed(unsealed) => {
            let Unsealed { rows, stage } = unsealed;
            filed_at(alloc, rows, stage, file)
        }
        phase => (phase, Ok(())),
    }
}

/// A retaining replica is retained, and a committing one may start its commit, with the file's bytes.
fn filed_at(
    alloc: Global,
    rows: MutableSegment,
    stage: Stage,
    file: SummarizedSegment,
) -> (Phase, Result<(), AllocError>)
    ensures ok { OnOk result.1 (result.0 ≡ filed_at rows stage file) }
    ensures err { OnErr result.1 (result.0 ≡ at rows stage) }
{
    match stage {
        Stage::Retaining(done) => (Phase::Retained(CommittedFile { file, done }), Ok(())),
        Stage::Building(reason) => match BuiltFile::make(alloc, file) {
            Ok(built) => {
                let stage = Stage::Starting { reason, built };
                (Phase::Unsealed(Unsealed { rows, stage }), Ok(()))
            }
            Err(refused) => {
                let stage = Stage::Building(reason);
                (Phase::Unsealed(Unsealed { rows, stage }), Err(refused))
            }
        },
        stage => (Phase::Unsealed(Unsealed { rows, stage }), Ok(())),
    }
}
