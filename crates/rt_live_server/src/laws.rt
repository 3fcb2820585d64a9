//! What is true of all that servers did. The law stands on a function that does nothing: its clauses are the law.
ghost use Rattle.std.specs.Prelude.{◌≤◌};
ghost use Rattle.rt_live_names.specs.Names.{Names};
ghost use Rattle.rt_live_server.specs.Steps.{ServerNow, ServerStep, Sights};
ghost use Rattle.rt_live_server.specs.declared.did.ServerDid.{ServerDid};
ghost use Rattle.rt_model.specs.Starting.{Starting};
ghost use Rattle.rt_stream.specs.Feed.{Grows};

/// What its fronts showed a server never falls: after each thing that it does these are as many entries of the store and
/// of the deep store as before it or more, and of each of the stream's partitions the messages before it, or more.
pub fn what_a_server_was_shown_never_falls()
    ensures store { (n : Names) (s : Starting) (shown : Sights) (a b : ServerNow) (did : ServerDid)
        → ServerStep n s shown a did b → a.seen.told ≤ b.seen.told }
    ensures deep { (n : Names) (s : Starting) (shown : Sights) (a b : ServerNow) (did : ServerDid)
        → ServerStep n s shown a did b → a.seen.deep_told ≤ b.seen.deep_told }
    ensures stream { (n : Names) (s : Starting) (shown : Sights) (a b : ServerNow) (did : ServerDid)
        → ServerStep n s shown a did b → Grows a.seen.log b.seen.log }
{}
