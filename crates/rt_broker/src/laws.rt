ghost use Rattle.std.specs.Prelude.{◌<◌, ℕ, Ok, Err};
ghost use Rattle.rt_base.specs.declared.numbers.Partition.{Partition};
ghost use Rattle.rt_model.specs.declared.query.Query.{Query};
ghost use Rattle.rt_model.specs.declared.setup.Setup.{Setup};
ghost use Rattle.rt_store.specs.Meaning.{Told};
ghost use Rattle.rt_store.specs.Memory.{means};
ghost use Rattle.rt_past.specs.Past.{Past, Grows};
ghost use Rattle.rt_past.specs.IsPast.{IsPast};
ghost use Rattle.rt_broker.specs.declared.refused.BrokerRefused.TheVariants.{StoreFault, Memory};
ghost use Rattle.rt_broker.specs.Answering.{AreServed};
ghost use Rattle.rt_broker.specs.Asking.{Asking, asking};
ghost use Rattle.rt_broker.specs.IsAsked.{IsAsked, messages_in};
ghost use Rattle.rt_broker.specs.Routing.{Routes, RoutedNow, FailedNow, RanOutNow};

/// What lasts of a query is there as it begins, and lasts as the past grows.
pub fn what_was_asked_lasts()
    ensures begins { (setup : Setup) (past : Past) (query : Query) → IsAsked setup past (asking query setup) }
    ensures grows { (setup : Setup) (a b : Past) (asked : Asking) → Grows a b → IsAsked setup a asked → IsAsked setup b asked }
{}

/// From what lasts of a query it follows that what was served are ranges of the log in order, each held by its groups, so
/// that its answer is right.
pub fn what_was_asked_is_served()
    ensures { (setup : Setup) (past : Past) (a : Asking) → IsAsked setup past a → IsPast setup past
        → messages_in past.log < 9223372036854775808 → AreServed setup.schema past.log a }
{}

/// Over a store that tells everything, a partition that is routed has the plan of the present metadata list, and one
/// that isn't met a planned fault. Where memory runs out no fault was met: store and query are as before.
pub fn routes_over_a_told_store_are_exact()
    ensures routed { (t u : Told) (a b : Asking) (p : Partition) (count : ℕ) → Routes (means t) (means u) a p b (Ok count)
        → RoutedNow t u a p b count }
    ensures failed { (t u : Told) (a b : Asking) (p : Partition) → Routes (means t) (means u) a p b (Err StoreFault)
        → FailedNow t u a p b }
    ensures out { (t u : Told) (a b : Asking) (p : Partition) → Routes (means t) (means u) a p b (Err Memory) → RanOutNow t u a b }
{}
