ghost use Rattle.std.specs.Prelude.{◌≡◌, ℕ, Bool, false, List, Some, None, Ok, Err};
ghost use Rattle.rt_base.specs.declared.numbers.ControllerId.{ControllerId};
ghost use Rattle.rt_base.specs.declared.numbers.Instance.{Instance};
ghost use Rattle.rt_base.specs.declared.numbers.Partition.{Partition};
ghost use Rattle.rt_base.specs.declared.numbers.Sequence.{Sequence};
ghost use Rattle.rt_broker.specs.Asking.{Asking};
ghost use Rattle.rt_events.specs.Fits.{Fits};
ghost use Rattle.rt_events.specs.declared.event.Event.{Event};
ghost use Rattle.rt_events.specs.declared.event.Event.TheVariants as event;
ghost use Rattle.rt_events.specs.declared.outcome.Outcome.{Outcome};
ghost use Rattle.rt_events.specs.declared.outcome.Outcome.TheVariants as told;
ghost use Rattle.rt_events.specs.declared.refusal.Refusal.{Refusal};
ghost use Rattle.rt_events.specs.declared.refusal.Refusal.TheVariants.{Memory};
ghost use Rattle.rt_exact.specs.Acts.{AreOne};
ghost use Rattle.rt_exact.specs.Alike.{AreAlike, is_piece};
ghost use Rattle.rt_exact.specs.Answered.{answer_to};
ghost use Rattle.rt_exact.specs.Asked.{events_of};
ghost use Rattle.rt_exact.specs.Reads.{ReadAlike};
ghost use Rattle.rt_exact.specs.Rows.{HoldTheSame};
ghost use Rattle.rt_exact.specs.Shown.{shown};
ghost use Rattle.rt_macros.specs.Exchanging.{ExchangeTold};
ghost use Rattle.rt_macros.specs.Filling.{FillTold};
ghost use Rattle.rt_macros.specs.Querying.{QueryTold};
ghost use Rattle.rt_macros.specs.Settling.{SettleTold};
ghost use Rattle.rt_model.specs.Checked.{IsQuery};
ghost use Rattle.rt_model.specs.Setup.{IsSetup};
ghost use Rattle.rt_model.specs.declared.answer.Answer.{Answer};
ghost use Rattle.rt_model.specs.declared.query.Query.{Query};
ghost use Rattle.rt_model.specs.declared.setup.Setup.{Setup};
ghost use Rattle.rt_safety.specs.Runs.{Turn, Runs};
ghost use Rattle.rt_state.specs.Finding.{query_at};
ghost use Rattle.rt_state.specs.IsSafeWorld.{IsSafeWorld};
ghost use Rattle.rt_world.specs.Kept.{Kept};
ghost use Rattle.rt_world.specs.Step.{Steps, StepsKept, due_of};
ghost use Rattle.rt_state.specs.declared.state.State.{State};

/// An event that happens in a safe world tells one outcome, and the worlds to which it may lead show the same; unless a piece
/// is served by it, there is one such world.
pub fn an_event_has_one_outcome()
    ensures told { (w : State) (e : Event) (x y : State) (a b : Outcome) → IsSafeWorld w → Steps w e x (Ok a) → Steps w e y (Ok b) → a ≡ b }
    ensures shows { (w : State) (e : Event) (x y : State) (a b : Outcome) → IsSafeWorld w → Steps w e x (Ok a) → Steps w e y (Ok b)
        → shown x ≡ shown y }
    ensures world { (w : State) (e : Event) (x y : State) (a b : Outcome) → is_piece e ≡ false → Steps w e x (Ok a) → Steps w e y (Ok b)
        → x ≡ y }
{}

/// No event that is refused happens, and a call of a world that can come to an outcome is refused for want of memory alone.
pub fn no_event_is_refused_and_happens()
    ensures never { (w : State) (e : Event) (x : State) (a : Outcome) (refusal : Refusal) → due_of w e ≡ Err refusal → Steps w e x (Ok a) → ⊥ }
    ensures calls { (old : Kept) (e : Event) (x y : Kept) (a : Outcome) (refusal : Refusal) → StepsKept old e x (Ok a)
        → StepsKept old e y (Err refusal) → refusal ≡ Memory }
{}

/// In alike worlds the same events can happen, and any other is refused for the same reason; each tells the same, and leads to alike worlds.
pub fn alike_worlds_go_on_alike()
    ensures due { (w v : State) (e : Event) → AreAlike w v → due_of w e ≡ due_of v e }
    ensures told { (w v : State) (e : Event) (x y : State) (a b : Outcome) → AreAlike w v → Fits w.setup.schema e → Steps w e x (Ok a)
        → Steps v e y (Ok b) → a ≡ b }
    ensures alike { (w v : State) (e : Event) (x y : State) (a b : Outcome) → AreAlike w v → Fits w.setup.schema e → Steps w e x (Ok a)
        → Steps v e y (Ok b) → AreAlike x y }
{}

/// What is read of alike worlds is the same, and the groups of their queries hold the same rows. Without an open query, alike worlds
/// are one.
pub fn alike_worlds_are_read_alike()
    ensures reads { (w v : State) → AreAlike w v → ReadAlike w v }
    ensures rows { (w v : State) (q : ℕ) (a b : Asking) → AreAlike w v → query_at w q ≡ Some a → query_at v q ≡ Some b → HoldTheSame a b }
    ensures whole { (w v : State) → AreAlike w v → ((q : ℕ) → query_at w q ≡ None) → w ≡ v }
{}

/// Two runs of one cluster by the same events are one run: each event tells the same in both, and they lead to alike worlds.
pub fn runs_by_the_same_events_are_one()
    ensures { (setup : Setup) (s t : List Turn) (x y : State) → IsSetup setup → Runs setup s x → Runs setup t y → events_of s ≡ events_of t
        → (s ≡ t) × AreAlike x y }
{}

/// Each macro has one outcome: from alike worlds it tells the same, or is refused for the same reason, and leads to alike worlds.
pub fn each_macro_has_one_outcome()
    ensures fill { (p : Partition) (n : ℕ) (w v : State) → AreAlike w v → AreOne (FillTold p n w) (FillTold p n v) }
    ensures query { (query : Query) (w v : State) → AreAlike w v → IsQuery w.setup.schema query
        → AreOne (QueryTold query w) (QueryTold query v) }
    ensures exchange { (i : Instance) (p : Partition) (q : Sequence) (c : ControllerId) (w v : State) → AreAlike w v
        → AreOne (ExchangeTold i p q c w) (ExchangeTold i p q c v) }
    ensures settle { (paused : Bool) (rounds : ℕ) (w v : State) → AreAlike w v → AreOne (SettleTold paused rounds w) (SettleTold paused rounds v) }
{}

/// The answer of a query in a safe world is a function of the world: its rows are those of the stream in the ranges that were served.
pub fn an_answer_is_the_worlds()
    ensures { (w : State) (q : ℕ) (x : State) (answer : Answer) → IsSafeWorld w → Steps w (event.Answer q) x (Ok (told.Answered answer))
        → answer_to w q ≡ Some answer }
{}
