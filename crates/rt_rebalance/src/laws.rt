//! What callers rely on, over the definitions alone.
ghost use Rattle.std.specs.Prelude.{◌≡◌, ◌&&◌, ◌||◌, not, true, ℕ, List, filter, Ok};
ghost use Rattle.rt_base.specs.declared.numbers.Instance.{Instance};
ghost use Rattle.rt_base.specs.declared.numbers.Partition.{Partition};
ghost use Rattle.rt_base.specs.declared.numbers.Sequence.{Sequence};
ghost use Rattle.rt_model.specs.declared.ideal_state.IdealEntry.{IdealEntry};
ghost use Rattle.rt_model.specs.declared.ideal_state.IdealState.{IdealState};
ghost use Rattle.rt_model.specs.Ideal.{is_of_instance};
ghost use Rattle.rt_model.specs.Order.{IsAscending};
ghost use Rattle.rt_rebalance.specs.Available.{AreStatesOnce, IsOnlineIn, is_available, present};
ghost use Rattle.rt_rebalance.specs.InTurn.{AreInTurn};
ghost use Rattle.rt_rebalance.specs.Plan.{IsRebalancePlan};
ghost use Rattle.rt_rebalance.specs.Planned.{slots_of_segment};
ghost use Rattle.rt_rebalance.specs.Rehearsed.{Call, IsAvailable, Rehearsed, after, has_replica, loaded, start_of, step};
ghost use Rattle.rt_rebalance.specs.Segments.{AreAscending, Segment, is_online};

/// However a plan is rehearsed, at every moment each moved segment has at least as many instances that are ONLINE in the
/// present state and have loaded it as are to be kept.
#[tactic(auto, using(crate::proofs::Rehearsals::enough_available))]
pub fn enough_instances_are_available()
    ensures { (keep : ℕ) (now goal : List IdealEntry) (states : List IdealState) (calls : List Call) → IsRebalancePlan keep now goal states
        → IsAvailable keep now goal (after calls (start_of states)) }
{}

/// By a plan the lowest instances that leave a segment leave first, and the lowest that come to it come first.
pub fn the_lowest_leave_and_come_first()
    ensures { (keep : ℕ) (now : Segment) (goal : Segment) → AreAscending now → AreAscending goal
        → AreInTurn (slots_of_segment keep now goal) }
{}

/// Which ONLINE instances are available while states are gone through in each of which an instance has a segment once: in
/// the first state all; after a step those that the state before has too, whose instances were all available then; and
/// those that have loaded their segment since they came. What is waited for are the others, in the order of the state.
/// In each state of a plan from an ascending state an instance has a segment once.
pub fn instances_are_available_once_they_have_loaded()
    ensures first { (states : List IdealState) (e : IdealEntry)
        → is_available (start_of states) e ≡ is_online e.mode }
    ensures before { (r : Rehearsed) (next : Rehearsed) (e : IdealEntry)
        → step r ≡ Ok next → IsOnlineIn r e → is_available r e ≡ true }
    ensures stepped { (states : List IdealState) (calls : List Call) (next : Rehearsed) (e : IdealEntry)
        → AreStatesOnce states → step (after calls (start_of states)) ≡ Ok next → IsOnlineIn next e
        → is_available next e ≡ has_replica (present (after calls (start_of states))) e }
    ensures loaded { (states : List IdealState) (calls : List Call) (p : Partition) (s : Sequence)
        (i : Instance) (e : IdealEntry) → AreStatesOnce states → IsOnlineIn (after calls (start_of states)) e
        → is_available (loaded p s i (after calls (start_of states))) e
        ≡ (is_available (after calls (start_of states)) e || is_of_instance p s i e) }
    ensures waiting { (states : List IdealState) (calls : List Call) → AreStatesOnce states
        → (after calls (start_of states)).waiting
        ≡ filter (λ e. is_online e.mode && not (is_available (after calls (start_of states)) e))
        (present (after calls (start_of states))) }
    ensures plan { (keep : ℕ) (now goal : List IdealEntry) (states : List IdealState)
        → IsAscending now → IsRebalancePlan keep now goal states → AreStatesOnce states }
{}
