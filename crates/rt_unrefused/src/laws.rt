//! The laws, each on a function that does nothing: its clause is the law.
ghost use Rattle.std.specs.Prelude.{◌≡◌, ◌≤◌, ◌⊎◌, ℕ, Bool, Err};
ghost use Rattle.rt_base.specs.declared.numbers.ControllerId.{ControllerId};
ghost use Rattle.rt_base.specs.declared.numbers.Instance.{Instance};
ghost use Rattle.rt_base.specs.declared.numbers.Partition.{Partition};
ghost use Rattle.rt_base.specs.declared.numbers.Sequence.{Sequence};
ghost use Rattle.rt_events.specs.declared.event.Event.TheVariants.{Report};
ghost use Rattle.rt_events.specs.declared.refusal.Refusal.{Refusal};
ghost use Rattle.rt_macros.specs.Doing.{Reached};
ghost use Rattle.rt_macros.specs.Exchanging.{Exchanges, exchange_due};
ghost use Rattle.rt_macros.specs.Querying.{Queries};
ghost use Rattle.rt_macros.specs.Settling.{Settles};
ghost use Rattle.rt_macros.specs.declared.settling.TheConstants.{MOST_ROUNDS};
ghost use Rattle.rt_model.specs.Checked.{IsQuery};
ghost use Rattle.rt_model.specs.declared.query.Query.{Query};
ghost use Rattle.rt_state.specs.IsSafeWorld.{IsSafeWorld};
ghost use Rattle.rt_state.specs.declared.state.State.{State};
ghost use Rattle.rt_unrefused.specs.Refused.{IsLimit};

/// An exchange is refused for what is found before its request is sent, or by a limit: the controller answers the request, at once or
/// by a job that ends, and the replica takes the answer.
#[tactic(auto, using(crate::proofs::Exchanging::exchange_refused))]
pub fn an_exchange_that_begins_is_refused_by_a_limit_alone()
    ensures { (i : Instance) (p : Partition) (q : Sequence) (c : ControllerId) (w : State) (v : Reached) (refusal : Refusal) → IsSafeWorld w
        → Exchanges i p q c w v (Err refusal) → IsLimit refusal ⊎ (exchange_due w (Report i p q) c ≡ Err refusal) }
{}

/// A `settle` of some rounds, and no more than the most, is refused by a limit alone, whichever nodes are down and whichever faults are planned.
pub fn a_settle_is_refused_by_a_limit_alone()
    ensures { (paused : Bool) (rounds : ℕ) (w : State) (v : Reached) (refusal : Refusal) → IsSafeWorld w → 1 ≤ rounds → rounds ≤ MOST_ROUNDS
        → Settles paused rounds w v (Err refusal) → IsLimit refusal }
{}

/// A query that can be read over the schema is refused by a limit alone, whichever nodes are down and whichever faults are planned: each partition
/// is routed, each piece asked for at its replicas until one serves it, and the query answered.
pub fn a_query_is_refused_by_a_limit_alone()
    ensures { (query : Query) (w : State) (v : Reached) (refusal : Refusal) → IsSafeWorld w → IsQuery w.setup.schema query
        → Queries query w v (Err refusal) → IsLimit refusal }
{}
