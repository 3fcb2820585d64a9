use crate::reporters::{
    all_reported, exclude, fresh, is_only_note, largest_note, note, smallest_at,
};
use rt_base::{Instance, Moment, Offset};
use rt_model::{Ask, FailCause, MachineState, Reaction, Reason, Reporter, Said, SeenMeta};
use std::alloc::{AllocError, Global};
use std::marker::Model;

/// How long, in milliseconds, a machine waits for all replicas before it picks among those that reported.
const PATIENCE: u64 = 6_000;

/// How long, in milliseconds, a committer has from the pick on.
const COMMIT_TIME: u64 = 120_000;

/// How long, in milliseconds, from its making on a machine may be granted more time.
const LONGEST_TIME: u64 = 1_800_000;

/// The completion machine of one segment.
///
/// It notes the offset that each replica reports, picks the replica that has come farthest, and lets that one alone
/// build, upload and commit the segment. `make` takes all memory that it needs.
#[derive(Drop)]
pub struct Machine {
    seen: SeenMeta,
    state: MachineState,
    made: Moment,
    winner: Instance,
    offset: Offset,
    deadline: Moment,
    reporters: Vec<Reporter>,
}

impl Model for Machine {
    ghost use Rattle.rt_model.specs.Completion.{Completion};

    ghost Value = { Completion };

    ghost view = { λ a. record {
      seen = a.seen;
      state = a.state;
      made = a.made;
      winner = a.winner;
      offset = a.offset;
      deadline = a.deadline;
      reporters = a.reporters.items;
    } };
}

impl Machine {
    ghost use Rattle.std.specs.Prelude.{◌≡◌, IfOk, IsTrue, nat_lt, ◌&&◌, Option, List, Bool, true, map};
    ghost use Rattle.rt_model.specs.Completion.{
      Completion,
      first,
      IsBeforePick,
      react,
      ended,
      is_late,
      past_start,
      by_table,
      consumed_in,
      commit_start_in,
      commit_end_in,
      stopped_in,
      extend_in,
      gathers,
      decided,
      catches_up,
      loses,
      wrong_state,
      wrong_offset,
      not_committer,
      aborts,
      with_note,
      without,
      with_pick,
      picks,
    };

    /// A machine that begins in HOLDING or PARTIAL_CONSUMING.
    ///
    /// `seen` is the segment's metadata as it was read, `replicas` the instances that are assigned to its partition,
    /// `now` the moment of making.
    pub fn make(
        alloc: Global,
        seen: SeenMeta,
        replicas: &[Instance],
        state: MachineState,
        now: Moment,
    ) -> Result<Machine, AllocError>
        requires { IsBeforePick state }
        ensures { IfOk result (λ machine. machine ≡ first seen replicas.now state now) }
    {
        let reporters = fresh(alloc, replicas)?;
        Ok(Machine {
            seen,
            state,
            made: now,
            winner: Instance(0),
            offset: Offset(0),
            deadline: Moment(0),
            reporters,
        })
    }

    /// Where the completion of the segment stands.
    pub fn state(&self) -> MachineState
        ensures { result ≡ self.now.state }
    {
        self.state
    }

    /// The segment's metadata, as it was read when the machine was made.
    pub fn seen(&self) -> &SeenMeta
        ensures { result.now ≡ self.now.seen }
    {
        &self.seen
    }

    /// What the machine makes of a message that comes at `now`. One that has ended answers WrongState.
    pub fn on(&mut self, sender: Instance, ask: Ask, now: Moment) -> Reaction
        ensures { (result, self.new) ≡ react self.old sender ask now }
    {
        if self.is_late(now) {
            return self.abort(Said::Hold);
        }
        match ask.offset() {
            Some(offset) if offset <= self.seen.meta.start => {
                let kept = self.seen.meta.start;
                Reaction::Answer(Said::Failed(FailCause::WrongOffset {
                    asked: offset,
                    kept,
                }))
            }
            _ => self.answer(sender, ask, now),
        }
    }

    /// Ends the machine with its commit job, COMMITTED or ABORTED.
    pub fn ended(&mut self, committed: bool)
        requires { self.old.state ≡ MachineState.Committing }
        ensures { self.new ≡ ended self.old committed }
    {
        self.state = if committed {
            MachineState::Committed
        } else {
            MachineState::Aborted
        };
    }

    /// Whether a committer is picked whose time is over.
    fn is_late(&self, now: Moment) -> bool
        ensures { result ≡ is_late self.now now }
    {
        match self.state {
            MachineState::CommitterDecided
            | MachineState::CommitterNotified
            | MachineState::CommitterUploading => now > self.deadline,
            _ => false,
        }
    }

    /// The answer by the table.
    fn answer(&mut self, sender: Instance, ask: Ask, now: Moment) -> Reaction
        ensures { (result, self.new) ≡ by_table self.old sender ask now }
    {
        match ask {
            Ask::Consumed { offset, reason } => self.consumed(sender, offset, reason, now),
            Ask::CommitStart { offset } => self.commit_start(sender, offset),
            Ask::CommitEnd { offset } => self.commit_end(sender, offset),
            Ask::Stopped => self.stopped(sender),
            Ask::Extend { millis } => self.extend(sender, millis, now),
        }
    }

    fn consumed(
        &mut self,
        sender: Instance,
        offset: Offset,
        reason: Reason,
        now: Moment,
    ) -> Reaction
        ensures { (result, self.new) ≡ consumed_in self.old.state self.old sender offset reason now }
    {
        match self.state {
            MachineState::PartialConsuming | MachineState::Holding => {
                self.note(sender, offset);
                self.gather(sender, offset, reason, now)
            }
            MachineState::CommitterDecided if offset > self.offset => self.abort(Said::Hold),
            MachineState::CommitterDecided if sender == self.winner && offset == self.offset => {
                self.state = MachineState::CommitterNotified;
                Reaction::Answer(Said::Commit(self.offset))
            }
            MachineState::CommitterNotified if offset > self.offset => self.abort(Said::Hold),
            MachineState::CommitterNotified if sender == self.winner && offset == self.offset => {
                Reaction::Answer(Said::Commit(self.offset))
            }
            MachineState::CommitterNotified if sender == self.winner => self.abort(Said::Hold),
            MachineState::CommitterUploading if sender == self.winner => self.abort(Said::Hold),
            MachineState::CommitterDecided
            | MachineState::CommitterNotified
            | MachineState::CommitterUploading
            | MachineState::Committing => self.catch_up(offset),
            MachineState::Committed | MachineState::Aborted => self.wrong_state(),
        }
    }

    fn commit_start(&mut self, sender: Instance, offset: Offset) -> Reaction
        ensures { (result, self.new) ≡ commit_start_in self.old.state self.old sender offset }
    {
        match self.state {
            MachineState::CommitterNotified if sender == self.winner && offset == self.offset => {
                self.state = MachineState::CommitterUploading;
                Reaction::Answer(Said::CommitContinue)
            }
            MachineState::CommitterNotified if sender == self.winner => self.wrong_offset(offset),
            MachineState::PartialConsuming
            | MachineState::Holding
            | MachineState::CommitterDecided
            | MachineState::CommitterNotified
            | MachineState::CommitterUploading
            | MachineState::Committing => Reaction::Answer(Said::Hold),
            MachineState::Committed | MachineState::Aborted => self.wrong_state(),
        }
    }

    fn commit_end(&mut self, sender: Instance, offset: Offset) -> Reaction
        ensures { (result, self.new) ≡ commit_end_in self.old.state self.old sender offset }
    {
        match self.state {
            MachineState::CommitterUploading if sender != self.winner => self.not_committer(),
            MachineState::CommitterUploading if offset != self.offset => self.wrong_offset(offset),
            MachineState::CommitterUploading => {
                self.state = MachineState::Committing;
                Reaction::StartCommit(self.offset)
            }
            _ => self.wrong_state(),
        }
    }

    fn stopped(&mut self, sender: Instance) -> Reaction
        ensures { (result, self.new) ≡ stopped_in self.old.state self.old sender }
    {
        match self.state {
            MachineState::PartialConsuming | MachineState::Holding => self.exclude(sender),
            MachineState::CommitterDecided
            | MachineState::CommitterNotified
            | MachineState::CommitterUploading
                if sender == self.winner => {
                self.state = MachineState::Aborted;
            }
            MachineState::CommitterDecided
            | MachineState::CommitterNotified
            | MachineState::CommitterUploading
            | MachineState::Committing => {}
            MachineState::Committed | MachineState::Aborted => return self.wrong_state(),
        }
        Reaction::StartOffline
    }

    fn extend(&mut self, sender: Instance, millis: u64, now: Moment) -> Reaction
        ensures { (result, self.new) ≡ extend_in self.old.state self.old sender millis now }
    {
        match self.state {
            MachineState::CommitterNotified if sender != self.winner => self.not_committer(),
            MachineState::CommitterNotified => {
                let wanted = now.0.saturating_add(millis);
                let longest = self.made.0.saturating_add(LONGEST_TIME);
                self.deadline = Moment(wanted.min(longest));
                Reaction::Answer(Said::Processed)
            }
            _ => self.wrong_state(),
        }
    }

    /// A report that is noted, before a pick.
    fn gather(&mut self, sender: Instance, offset: Offset, reason: Reason, now: Moment) -> Reaction
        ensures { (result, self.new) ≡ gathers self.old sender offset reason now }
    {
        if !self.picks(sender, reason, now) {
            self.state = MachineState::Holding;
            return Reaction::Answer(Said::Hold);
        }
        self.pick(sender, offset, now);
        if sender == self.winner {
            self.state = MachineState::CommitterNotified;
            return Reaction::Answer(Said::Commit(self.offset));
        }
        self.state = MachineState::CommitterDecided;
        Reaction::Answer(if offset == self.offset {
            Said::Hold
        } else {
            Said::CatchUp(self.offset)
        })
    }

    /// Whether a report that is noted makes the machine pick.
    fn picks(&self, sender: Instance, reason: Reason, now: Moment) -> bool
        ensures { result ≡ picks self.now sender reason now }
    {
        all_reported(&self.reporters)
            || now.0 > self.made.0.saturating_add(PATIENCE)
            || (reason == Reason::RowLimit && is_only_note(&self.reporters, sender))
    }

    /// Picks the committer at the sender's report.
    fn pick(&mut self, sender: Instance, offset: Offset, now: Moment)
        ensures { self.new ≡ with_pick self.old sender offset now }
    {
        self.offset = largest_note(&self.reporters);
        self.winner = if offset == self.offset {
            sender
        } else {
            smallest_at(&self.reporters, self.offset).unwrap_or(sender)
        };
        self.deadline = Moment(now.0.saturating_add(COMMIT_TIME));
    }

    /// Notes what the sender reports, and ends its exclusion.
    fn note(&mut self, sender: Instance, offset: Offset)
        ensures { self.new ≡ with_note self.old sender offset }
    {
        note(&mut self.reporters, sender, offset);
    }

    /// Excludes the sender, and forgets its note.
    fn exclude(&mut self, sender: Instance)
        ensures { self.new ≡ without self.old sender }
    {
        exclude(&mut self.reporters, sender);
    }

    /// Ends the machine with an answer.
    fn abort(&mut self, said: Said) -> Reaction
        ensures { (result, self.new) ≡ aborts self.old said }
    {
        self.state = MachineState::Aborted;
        Reaction::Answer(said)
    }

    /// Sends a replica that is behind the committer to its offset, and lets another wait.
    fn catch_up(&self, offset: Offset) -> Reaction
        ensures { (result, self.now) ≡ catches_up self.now offset }
    {
        if offset < self.offset {
            Reaction::Answer(Said::CatchUp(self.offset))
        } else {
            Reaction::Answer(Said::Hold)
        }
    }

    fn wrong_state(&self) -> Reaction
        ensures { (result, self.now) ≡ wrong_state self.now }
    {
        Reaction::Answer(Said::Failed(FailCause::WrongState(self.state)))
    }

    fn not_committer(&self) -> Reaction
        ensures { (result, self.now) ≡ not_committer self.now }
    {
        Reaction::Answer(Said::Failed(FailCause::NotCommitter(self.winner)))
    }

    /// Ends the machine, since its committer came with another offset.
    fn wrong_offset(&mut self, offset: Offset) -> Reaction
        ensures { (result, self.new) ≡ wrong_offset self.old offset }
    {
        self.abort(Said::Failed(FailCause::WrongOffset {
            asked: offset,
            kept: self.offset,
        }))
    }
}
