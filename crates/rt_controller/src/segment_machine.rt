ghost use Rattle.std.specs.Prelude.{◌≡◌, ◌<◌, true, Some, filter, slice_get};
ghost use Rattle.std.specs.Vec.{vec_len, vec_capacity};
ghost use Rattle.rt_model.specs.Completion.{react};
ghost use Rattle.rt_controller.specs.declared.segment_machine.SegmentMachine.{SegmentMachine};
ghost use Rattle.rt_controller.specs.Controller.{has_ended, is_committing, is_of, with_machine, replaced, added, machine_place, without_machine};

use rt_base::{Instance, Moment, Partition, Sequence};
use rt_fsm::Machine;
use rt_model::{Ask, Asked, MachineState, Reaction};

/// A segment's completion machine.
#[derive(Drop)]
pub struct SegmentMachine {
    pub partition: Partition,
    pub sequence: Sequence,
    pub machine: Machine,
}

impl SegmentMachine {
    /// What the machine makes of a message.
    pub(crate) fn on(&mut self, sender: Instance, ask: Ask, now: Moment) -> Reaction
        ensures reaction { result ≡ (react self.old.machine sender ask now).0 }
        ensures machine { self.new ≡ with_machine self.old (react self.old.machine sender ask now).1 }
    {
        self.machine.on(sender, ask, now)
    }

    /// Whether the machine has ended.
    pub(crate) fn has_ended(&self) -> bool
        ensures { result ≡ has_ended self.now.machine.state }
    {
        match self.machine.state() {
            MachineState::PartialConsuming => false,
            MachineState::Holding => false,
            MachineState::CommitterDecided => false,
            MachineState::CommitterNotified => false,
            MachineState::CommitterUploading => false,
            MachineState::Committing => false,
            MachineState::Committed => true,
            MachineState::Aborted => true,
        }
    }

    /// Whether the machine is COMMITTING.
    pub(crate) fn is_committing(&self) -> bool
        ensures { result ≡ is_committing self.now.machine.state }
    {
        match self.machine.state() {
            MachineState::PartialConsuming => false,
            MachineState::Holding => false,
            MachineState::CommitterDecided => false,
            MachineState::CommitterNotified => false,
            MachineState::CommitterUploading => false,
            MachineState::Committing => true,
            MachineState::Committed => false,
            MachineState::Aborted => false,
        }
    }

    /// Whether it is this segment's.
    fn is_of(&self, partition: Partition, sequence: Sequence) -> bool
        ensures { result ≡ is_of partition sequence self.now }
    {
        self.partition == partition && self.sequence == sequence
    }
}

/// The place of a segment's machine.
pub(crate) fn machine_place(
    machines: &[SegmentMachine],
    partition: Partition,
    sequence: Sequence,
) -> Option<usize>
    ensures { result ≡ machine_place machines.now partition sequence }
{
    machines
        .iter()
        .position(|kept| kept.is_of(partition, sequence))
}

/// What the machine at a place makes of a message; one that ends is dropped.
pub(crate) fn react_at(
    machines: &mut Vec<SegmentMachine>,
    place: usize,
    sender: Instance,
    ask: Ask,
    now: Moment,
) -> Reaction
    requires { place < vec_len machines.old }
    ensures reaction { (m : SegmentMachine) → slice_get machines.old.items place ≡ Some m
        → result ≡ (react m.machine sender ask now).0 }
    ensures machines { (m : SegmentMachine) → slice_get machines.old.items place ≡ Some m
        → machines.new.items ≡ replaced machines.old.items place (with_machine m (react m.machine sender ask now).1) }
{
    let reaction = machines[place].on(sender, ask, now);
    if machines[place].has_ended() {
        let _ = machines.remove(place);
    }
    reaction
}

/// Keeps a new machine, for which there is room, unless it has ended.
pub(crate) fn add(machines: &mut Vec<SegmentMachine>, kept: SegmentMachine)
    requires { vec_len machines.old < vec_capacity machines.old }
    ensures { machines.new.items ≡ added machines.old.items kept }
{
    if !kept.has_ended() {
        machines.push_reserved(kept);
    }
}

/// Drops the machine of a segment, where there is one.
pub(crate) fn drop_machine(machines: &mut Vec<SegmentMachine>, asked: Asked)
    ensures { machines.new.items ≡ without_machine machines.old.items asked true }
{
    if let Some(place) = machine_place(machines.as_slice(), asked.partition, asked.sequence) {
        let _ = machines.remove(place);
    }
}

/// Drops every machine that isn't COMMITTING.
pub(crate) fn keep_committing(machines: &mut Vec<SegmentMachine>)
    ensures { machines.new.items ≡ filter (λ m. is_committing m.machine.state) machines.old.items }
{
    machines.retain(|kept| kept.is_committing());
}
