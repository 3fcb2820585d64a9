//! The turns of a server.
ghost use Rattle.std.specs.Prelude.{◌≡◌, ◌<◌, ◌-◌, ◌^◌, true, false, length};

use crate::due::ServerDue;
use crate::seat::ServerSeat;
use rt_base::{Clock, Moment, Partition, Sequence};
use rt_entry::ServerRefused;
use rt_ground::Naming;
use rt_link::Envelope;
use rt_live_names::{Cluster, Ends, moment};
use std::alloc::{AllocError, Global};
use std::sync::Wait;

/// A server reads the ideal state in one of so many turns.
const SIGHT: u64 = 8;

impl<R: Wait + Copy, J: Naming, K: Cluster> ServerSeat<R, J, K> {
    /// The server's turn of this number, counted from 0; whether it did anything. It crashes in its crash turn, and
    /// comes up again in the next. Else it takes an envelope, if there is one. Else it reads the ideal state in each
    /// eighth turn, and does the first thing that is due in the others: a transition, a file that is wanted, and then
    /// what its replicas have to do. Where memory is refused the run is told. A server whose diary is full does
    /// nothing.
    pub fn turn<C: Clock>(
        &mut self,
        rt: &R,
        alloc: Global,
        clock: &C,
        ends: &Ends,
        turn: u64,
    ) -> bool {
        if !self.acting.has_room() {
            return false;
        }
        if self.crash == Some(turn) {
            return self.crash();
        }
        if !self.acting.is_up() {
            return self.restart(alloc, ends);
        }
        if self.take(rt) {
            return true;
        }
        if turn % SIGHT == SIGHT - 1 {
            return self.see(alloc, ends);
        }
        match self.due(alloc, clock, ends, turn) {
            Ok(Some(due)) => self.act(rt, alloc, clock, ends, turn, due),
            Ok(None) => false,
            Err(AllocError) => {
                ends.refuse();
                false
            }
        }
    }

    /// Takes an envelope, if there is one, when no node posts any more; whether there was one.
    pub fn drain(&mut self, rt: &R) -> bool {
        if !self.acting.has_room() {
            return false;
        }
        self.take(rt)
    }

    // Takes an envelope, if there is one.
    fn take(&mut self, rt: &R) -> bool
        requires { length self.old.acting.did < 2 ^ 64 - 1 }
    {
        let Some(envelope) = self.inbox.take(rt) else {
            return false;
        };
        if let Some((partition, sequence)) = self.acting.take_in(envelope) {
            self.patience.end(partition, sequence);
        }
        self.agenda.outdate();
        true
    }

    fn crash(&mut self) -> bool
        requires { length self.old.acting.did < 2 ^ 64 - 1 }
    {
        self.acting.crash();
        self.patience.clear();
        self.agenda.outdate();
        true
    }

    fn restart(&mut self, alloc: Global, ends: &Ends) -> bool
        requires room { length self.old.acting.did < 2 ^ 64 - 1 }
        requires down { self.old.acting.up ≡ false }
    {
        let result = self.acting.restart(alloc);
        self.agenda.outdate();
        tell(ends, result);
        true
    }

    fn see(&mut self, alloc: Global, ends: &Ends) -> bool {
        if !self.acting.can_act() {
            return false;
        }
        let result = self.acting.see(alloc);
        self.agenda.outdate();
        tell(ends, result);
        true
    }

    // The first thing that is due.
    fn due<C: Clock>(
        &mut self,
        alloc: Global,
        clock: &C,
        ends: &Ends,
        turn: u64,
    ) -> Result<Option<ServerDue>, AllocError> {
        let appended = ends.all_appended();
        self.agenda.refresh(alloc, self.acting.server())?;
        match self.agenda.first() {
            Some(due) => Ok(Some(due)),
            None => Ok(self.replica_due(clock, turn, appended)),
        }
    }

    // The first thing that a replica has to do.
    fn replica_due<C: Clock>(&mut self, clock: &C, turn: u64, appended: bool) -> Option<ServerDue> {
        for place in 0..self.agenda.count() {
            let (partition, sequence) = self.agenda.active(place)?;
            if let Some(due) = self.due_at(clock, turn, appended, partition, sequence) {
                return Some(due);
            }
        }
        None
    }

    // What the replica of a segment has to do. One that waits for a reply doesn't ask again yet.
    fn due_at<C: Clock>(
        &mut self,
        clock: &C,
        turn: u64,
        appended: bool,
        partition: Partition,
        sequence: Sequence,
    ) -> Option<ServerDue> {
        let due = self
            .acting
            .next_of(partition, sequence, self.start, clock, appended);
        let waits = matches!(due, Some(ServerDue::Ask { .. }))
            && !self.patience.is_over(partition, sequence, turn);
        if waits { None } else { due }
    }

    fn act<C: Clock>(
        &mut self,
        rt: &R,
        alloc: Global,
        clock: &C,
        ends: &Ends,
        turn: u64,
        due: ServerDue,
    ) -> bool {
        if !self.acting.can_act() {
            return false;
        }
        match due {
            ServerDue::Move {
                partition,
                sequence,
            } => {
                let now = moment(self.start, clock);
                self.move_one(rt, alloc, ends, partition, sequence, now)
            }
            ServerDue::Load {
                partition,
                sequence,
            } => self.load_one(alloc, ends, partition, sequence),
            ServerDue::Consume {
                partition,
                sequence,
                now,
            } => self.consume_one(alloc, ends, partition, sequence, now),
            ServerDue::Force {
                partition,
                sequence,
            } => self.force_one(partition, sequence),
            ServerDue::Build {
                partition,
                sequence,
            } => self.build_one(alloc, ends, partition, sequence),
            ServerDue::Ask {
                partition,
                sequence,
            } => self.ask(rt, alloc, ends, turn, partition, sequence),
        }
    }

    fn move_one(
        &mut self,
        rt: &R,
        alloc: Global,
        ends: &Ends,
        partition: Partition,
        sequence: Sequence,
        now: Moment,
    ) -> bool
        requires room { length self.old.acting.did < 2 ^ 64 - 1 }
        requires up { self.old.acting.up ≡ true }
    {
        let result = self.acting.move_one(rt, alloc, partition, sequence, now);
        self.step(partition, sequence);
        tell(ends, result);
        true
    }

    fn load_one(
        &mut self,
        alloc: Global,
        ends: &Ends,
        partition: Partition,
        sequence: Sequence,
    ) -> bool
        requires room { length self.old.acting.did < 2 ^ 64 - 1 }
        requires up { self.old.acting.up ≡ true }
    {
        let result = self.acting.load_one(alloc, partition, sequence);
        self.step(partition, sequence);
        tell(ends, result);
        true
    }

    fn consume_one(
        &mut self,
        alloc: Global,
        ends: &Ends,
        partition: Partition,
        sequence: Sequence,
        now: Moment,
    ) -> bool
        requires room { length self.old.acting.did < 2 ^ 64 - 1 }
        requires up { self.old.acting.up ≡ true }
    {
        let result = self.acting.consume_one(alloc, partition, sequence, now);
        self.step(partition, sequence);
        tell(ends, result);
        true
    }

    fn force_one(&mut self, partition: Partition, sequence: Sequence) -> bool
        requires room { length self.old.acting.did < 2 ^ 64 - 1 }
        requires up { self.old.acting.up ≡ true }
    {
        let _forced = self.acting.force_one(partition, sequence);
        self.step(partition, sequence);
        true
    }

    fn build_one(
        &mut self,
        alloc: Global,
        ends: &Ends,
        partition: Partition,
        sequence: Sequence,
    ) -> bool
        requires room { length self.old.acting.did < 2 ^ 64 - 1 }
        requires up { self.old.acting.up ≡ true }
    {
        let result = self.acting.build_one(alloc, partition, sequence);
        self.step(partition, sequence);
        tell(ends, result);
        true
    }

    // A replica asks, and its server posts the request.
    fn ask(
        &mut self,
        rt: &R,
        alloc: Global,
        ends: &Ends,
        turn: u64,
        partition: Partition,
        sequence: Sequence,
    ) -> bool
        requires room { length self.old.acting.did < 2 ^ 64 - 1 }
        requires up { self.old.acting.up ≡ true }
    {
        if !self.posts.has_room() || !self.acting.has_number() {
            return false;
        }
        match self.acting.ask(alloc, partition, sequence) {
            Ok(request) => {
                let envelope = Envelope::Asks(request);
                self.posts.send(rt, alloc, self.controller, envelope);
                self.wait(ends, turn, partition, sequence);
            }
            Err(refused) => tell::<()>(ends, Err(refused)),
        }
        true
    }

    // The replica of a segment waits for a reply.
    fn wait(&mut self, ends: &Ends, turn: u64, partition: Partition, sequence: Sequence) {
        if self.patience.begin(partition, sequence, turn).is_err() {
            ends.refuse();
        }
    }

    // The replica of a segment took a step, and waits for no reply.
    fn step(&mut self, partition: Partition, sequence: Sequence) {
        self.patience.end(partition, sequence);
        self.agenda.outdate();
    }
}

// Tells the run where memory was refused.
fn tell<X: Copy>(ends: &Ends, answer: Result<X, ServerRefused>) {
    if matches!(answer, Err(ServerRefused::Memory)) {
        ends.refuse();
    }
}
