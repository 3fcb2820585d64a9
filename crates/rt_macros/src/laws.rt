//! The numbers of `settle`. The law stands on a function that does nothing: its clauses are the law.
ghost use Rattle.std.specs.Prelude.{◌≡◌};
ghost use Rattle.rt_macros.specs.declared.settling.TheConstants.{BATCH, MOST_ROUNDS};

/// How many messages a replica takes in one `consume` of `settle`, and how many rounds a line may ask for.
pub fn the_numbers_of_settle_are()
    ensures messages { BATCH ≡ 100 }
    ensures rounds { MOST_ROUNDS ≡ 1_000_000 }
{}
