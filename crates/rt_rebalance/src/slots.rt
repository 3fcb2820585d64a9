ghost use Rattle.std.specs.Prelude.{◌≡◌, ◌∷◌, [], ◌++◌, ◌+◌, ◌<◌, ◌≤◌, length, IfOk, IfSome, IfNone, OnOk};
ghost use Rattle.rt_rebalance.specs.Planned.{lined_up, pace_of, slot, slots_of, slots_of_segment, stays_in, step_of};
ghost use Rattle.rt_rebalance.specs.declared.slot.Turn.TheVariants.{Stays, Leaves, Comes};

use crate::segments::{is_moved, next_pair};
use crate::slot::{Slot, Turn};
use rt_model::IdealEntry;
use std::alloc::{AllocError, Global};

/// What is left of a segment and of its goal, and how many instances leave the one and come to the other before.
#[derive(Clone, Copy)]
struct Line<'a> {
    now: &'a [IdealEntry],
    goal: &'a [IdealEntry],
    left: usize,
    come: usize,
}

/// A slot, and the line behind it.
#[derive(Clone, Copy)]
struct Next<'a> {
    slot: Slot,
    line: Line<'a>,
}

/// What a plan does with the instances of all segments, in the order of the entries.
pub(crate) fn slots_of(
    alloc: Global,
    keep: u32,
    now: &[IdealEntry],
    goal: &[IdealEntry],
) -> Result<Vec<Slot>, AllocError>
    ensures { IfOk result (λ slots. slots.items ≡ slots_of keep now.now goal.now) }
{
    let mut slots = Vec::new(alloc);
    let mut later = now;
    let mut goals = goal;
    while let Some(next) = next_pair(later, goals) {
        add_segment(&mut slots, keep, next.now, next.goal)?;
        later = next.later;
        goals = next.goals;
    }
    Ok(slots)
}

fn add_segment(
    slots: &mut Vec<Slot>,
    keep: u32,
    now: &[IdealEntry],
    goal: &[IdealEntry],
) -> Result<(), AllocError>
    ensures { OnOk result (slots.new.items ≡ slots.old.items ++ slots_of_segment keep now.now goal.now) }
{
    if is_moved(now, goal) {
        line_up(slots, pace_of(keep, now), now, goal)
    } else {
        add_all(slots, now)
    }
}

// How many instances of a segment may leave it in one step; at least one does where a plan is made.
fn pace_of(keep: u32, now: &[IdealEntry]) -> usize
    ensures { result ≡ pace_of keep now.now }
{
    now.len().saturating_sub(keep as usize).max(1)
}

fn add_all(slots: &mut Vec<Slot>, now: &[IdealEntry]) -> Result<(), AllocError>
    ensures { OnOk result (slots.new.items ≡ slots.old.items ++ stays_in now.now) }
{
    for entry in now {
        slots.push(Slot {
            entry: *entry,
            turn: Turn::Stays,
        })?;
    }
    Ok(())
}

// Puts the instances of a moved segment and of its goal in line, by ascending instance.
fn line_up(
    slots: &mut Vec<Slot>,
    pace: usize,
    now: &[IdealEntry],
    goal: &[IdealEntry],
) -> Result<(), AllocError>
    requires { 1 ≤ pace }
    ensures { OnOk result (slots.new.items ≡ slots.old.items ++ lined_up pace 0 0 now.now goal.now) }
{
    let mut line = Line {
        now,
        goal,
        left: 0,
        come: 0,
    };
    while let Some(next) = line.next(pace) {
        slots.push(next.slot)?;
        line = next.line;
    }
    Ok(())
}

impl<'a> Line<'a> {
    // The slot of the lowest instance that is left, and the line behind it.
    fn next(self, pace: usize) -> Option<Next<'a>>
        requires pace { 1 ≤ pace }
        requires left { self.left + length self.now.now < 9223372036854775808 }
        requires come { self.come + length self.goal.now < 9223372036854775808 }
        ensures next { IfSome result (λ next. lined_up pace self.entry.left self.entry.come self.entry.now.now self.entry.goal.now
            ≡ next.slot ∷ lined_up pace next.line.left next.line.come next.line.now.now next.line.goal.now) }
        ensures fewer { IfSome result (λ next. length next.line.now.now + length next.line.goal.now < length self.entry.now.now + length self.entry.goal.now) }
        ensures left { IfSome result (λ next. next.line.left + length next.line.now.now ≤ self.entry.left + length self.entry.now.now) }
        ensures come { IfSome result (λ next. next.line.come + length next.line.goal.now ≤ self.entry.come + length self.entry.goal.now) }
        ensures none { IfNone result (lined_up pace self.entry.left self.entry.come self.entry.now.now self.entry.goal.now ≡ []) }
    {
        match self.now {
            [] => match self.goal {
                [] => None,
                [other, goal @ ..] => Some(self.comes(pace, *other, goal)),
            },
            [entry, now @ ..] => match self.goal {
                [] => Some(self.leaves(pace, *entry, now)),
                [other, goal @ ..] => {
                    if entry.instance == other.instance {
                        Some(self.stays(*entry, now, goal))
                    } else if entry.instance < other.instance {
                        Some(self.leaves(pace, *entry, now))
                    } else {
                        Some(self.comes(pace, *other, goal))
                    }
                }
            },
        }
    }

    fn stays(self, entry: IdealEntry, now: &'a [IdealEntry], goal: &'a [IdealEntry]) -> Next<'a>
        ensures slot { result.slot ≡ slot entry Stays }
        ensures now { result.line.now.now ≡ now.now }
        ensures goal { result.line.goal.now ≡ goal.now }
        ensures left { result.line.left ≡ self.entry.left }
        ensures come { result.line.come ≡ self.entry.come }
    {
        Next {
            slot: Slot {
                entry,
                turn: Turn::Stays,
            },
            line: Line { now, goal, ..self },
        }
    }

    fn leaves(self, pace: usize, entry: IdealEntry, now: &'a [IdealEntry]) -> Next<'a>
        requires pace { 1 ≤ pace }
        requires left { self.left < 9223372036854775808 }
        ensures slot { result.slot ≡ slot entry (Leaves (step_of pace self.entry.left)) }
        ensures now { result.line.now.now ≡ now.now }
        ensures goal { result.line.goal.now ≡ self.entry.goal.now }
        ensures left { result.line.left ≡ self.entry.left + 1 }
        ensures come { result.line.come ≡ self.entry.come }
    {
        Next {
            slot: Slot {
                entry,
                turn: Turn::Leaves(step_of(pace, self.left)),
            },
            line: Line {
                now,
                left: self.left + 1,
                ..self
            },
        }
    }

    fn comes(self, pace: usize, entry: IdealEntry, goal: &'a [IdealEntry]) -> Next<'a>
        requires pace { 1 ≤ pace }
        requires come { self.come < 9223372036854775808 }
        ensures slot { result.slot ≡ slot entry (Comes (step_of pace self.entry.come)) }
        ensures now { result.line.now.now ≡ self.entry.now.now }
        ensures goal { result.line.goal.now ≡ goal.now }
        ensures left { result.line.left ≡ self.entry.left }
        ensures come { result.line.come ≡ self.entry.come + 1 }
    {
        Next {
            slot: Slot {
                entry,
                turn: Turn::Comes(step_of(pace, self.come)),
            },
            line: Line {
                goal,
                come: self.come + 1,
                ..self
            },
        }
    }
}

// The step in which an instance leaves or comes behind so many others.
fn step_of(pace: usize, earlier: usize) -> usize
    requires pace { 1 ≤ pace }
    requires earlier { earlier < 9223372036854775808 }
    ensures { result ≡ step_of pace earlier }
{
    earlier / pace + 1
}
