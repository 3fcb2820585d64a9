ghost use Rattle.std.specs.Prelude.{◌≡◌, ℕ, [], ◌∷◌, ◌<◌, ◌≤◌, length, None, IfSome, IfNone};
ghost use Rattle.rt_rebalance.specs.Planned.{slots_of};
ghost use Rattle.rt_rebalance.specs.Refused.{refused_of};
ghost use Rattle.rt_rebalance.specs.Segments.{are_online, is_beside, is_moved, is_online, same_instances, segments_of};
ghost use Rattle.rt_rebalance.specs.Runs.{run_of};

use rt_model::{IdealEntry, Mode};

/// The entries of the first segment of some entries, and the others.
#[derive(Clone, Copy)]
pub(crate) struct Parted<'a> {
    pub(crate) first: &'a [IdealEntry],
    pub(crate) rest: &'a [IdealEntry],
}

/// Parts the entries of the first segment from the others.
#[tactic(auto, using(crate::proofs::Grouping::run_parts, crate::proofs::Grouping::run_some))]
pub(crate) fn part(entries: &[IdealEntry]) -> Parted<'_>
    requires { 0 < length entries.now }
    ensures parts { segments_of entries.now ≡ result.first.now ∷ segments_of result.rest.now }
    ensures fewer { length result.rest.now < length entries.now }
{
    let (first, rest) = entries.split_at(run_of(entries[0], entries));
    Parted { first, rest }
}

/// The first segment of some entries and of a target's, and the others.
#[derive(Clone, Copy)]
pub(crate) struct Pair<'a> {
    pub(crate) now: &'a [IdealEntry],
    pub(crate) goal: &'a [IdealEntry],
    pub(crate) later: &'a [IdealEntry],
    pub(crate) goals: &'a [IdealEntry],
}

/// Parts the first segments of two states from the others; None where one has no segment left.
#[tactic(auto, using(crate::proofs::Ends::no_goals, crate::proofs::Ends::none_refused))]
pub(crate) fn next_pair<'a>(later: &'a [IdealEntry], goals: &'a [IdealEntry]) -> Option<Pair<'a>>
    ensures nows { IfSome result (λ pair. segments_of later.now ≡ pair.now.now ∷ segments_of pair.later.now) }
    ensures goals { IfSome result (λ pair. segments_of goals.now ≡ pair.goal.now ∷ segments_of pair.goals.now) }
    ensures fewer { IfSome result (λ pair. length pair.later.now < length later.now) }
    ensures unrefused { IfNone result ((keep : ℕ) → refused_of keep later.now goals.now ≡ None) }
    ensures slotless { IfNone result ((keep : ℕ) → slots_of keep later.now goals.now ≡ []) }
{
    match later {
        [] => None,
        [_, ..] => match goals {
            [] => None,
            [_, ..] => {
                let here = part(later);
                let there = part(goals);
                Some(Pair {
                    now: here.first,
                    goal: there.first,
                    later: here.rest,
                    goals: there.rest,
                })
            }
        },
    }
}

// How many entries from the first on are of the segment of this one.
fn run_of(entry: IdealEntry, entries: &[IdealEntry]) -> usize
    ensures run { result ≡ run_of entry entries.now }
    ensures within { result ≤ length entries.now }
{
    for (place, other) in entries.iter().enumerate() {
        if !is_beside(entry, *other) {
            return place;
        }
    }
    entries.len()
}

fn is_beside(entry: IdealEntry, other: IdealEntry) -> bool
    ensures { result ≡ is_beside entry other }
{
    other.partition == entry.partition && other.sequence == entry.sequence
}

/// Whether a segment is to be moved: all its entries are ONLINE, and its instances differ in the target.
pub(crate) fn is_moved(now: &[IdealEntry], goal: &[IdealEntry]) -> bool
    ensures { result ≡ is_moved now.now goal.now }
{
    are_online(now) && !same_instances(now, goal)
}

pub(crate) fn are_online(segment: &[IdealEntry]) -> bool
    ensures { result ≡ are_online segment.now }
{
    for entry in segment {
        if !is_online(entry.mode) {
            return false;
        }
    }
    true
}

pub(crate) fn is_online(mode: Mode) -> bool
    ensures { result ≡ is_online mode }
{
    match mode {
        Mode::Online => true,
        Mode::Consuming | Mode::Offline => false,
    }
}

fn same_instances(now: &[IdealEntry], goal: &[IdealEntry]) -> bool
    ensures { result ≡ same_instances now.now goal.now }
{
    let mut rest = now;
    let mut others = goal;
    while let [entry, later @ ..] = rest {
        let [other, more @ ..] = others else {
            return false;
        };
        if entry.instance != other.instance {
            return false;
        }
        rest = later;
        others = more;
    }
    others.is_empty()
}
