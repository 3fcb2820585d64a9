//! What the joining of the nodes tells of them. Each law stands on a function that does nothing: its clause is the law.
ghost use Rattle.std.specs.Prelude.{◌≡◌, ℕ, ◌+◌, All, List, [], ◌∷◌, ◌++◌, length, map, slice_get, Some};
ghost use Rattle.rt_broker.specs.IsAskedBy.{GivesMore};
ghost use Rattle.rt_broker.specs.declared.piece_given.PieceGiven.{PieceGiven};
ghost use Rattle.rt_front.specs.Histories.{Known};
ghost use Rattle.rt_ground.specs.Histories.{whats};
ghost use Rattle.rt_link.specs.declared.envelope.Envelope.TheVariants as envelope;
ghost use Rattle.rt_lists.specs.Members.{Has, IsFront};
ghost use Rattle.rt_live_end.specs.Ended.{
  AreControllerParts,
  AreServerParts,
  Ended,
  fronts_met,
  fronts_of,
  gave_by,
};
ghost use Rattle.rt_live_end.specs.Meeting.{HasFirst, HasMet, IsShown, IsTold, MeetsOne};
ghost use Rattle.rt_live_names.specs.BrokerPart.{given_by};
ghost use Rattle.rt_live_names.specs.ControllerPart.{ControllerPart, IsControllerPart};
ghost use Rattle.rt_live_names.specs.Fronts.{AreOfCaller, Fronts};
ghost use Rattle.rt_live_names.specs.Names.{Names};
ghost use Rattle.rt_live_names.specs.ServerPart.{IsServerPart, ServerPart};
ghost use Rattle.rt_model.specs.declared.reply.Reply.{Reply};
ghost use Rattle.rt_model.specs.declared.request.Request.{Request};

/// A caller knows itself. As it takes in another one it knows that too, and all that it knew before; and so it does as
/// it is told what there is, and as it is shown the store's history.
pub fn what_was_met_is_known()
    ensures itself { (f : Fronts) → HasMet f f }
    ensures meets { (old other new : Fronts) (parts : List Fronts) → MeetsOne old other new
        → All (HasMet old) parts → All (HasMet new) (parts ++ other ∷ []) }
    ensures told { (old new : Fronts) (parts : List Fronts) → IsTold old new
        → All (HasMet old) parts → All (HasMet new) parts }
    ensures shown { (old new : Fronts) (parts : List Fronts) → IsShown old new
        → All (HasMet old) parts → All (HasMet new) parts }
    ensures in_order { (e : Ended) → All (HasMet e.met) (fronts_met e)
        → All (HasMet e.met) (fronts_of e) }
{}

/// A caller that takes in the others in the order of their numbers has all numbers.
pub fn all_numbers_are_met()
    ensures first { (f : Fronts) → AreOfCaller 0 f → HasFirst 1 f }
    ensures meets { (count : ℕ) (old other new : Fronts) → MeetsOne old other new
        → HasFirst count old → AreOfCaller count other → HasFirst (count + 1) new }
    ensures told { (count : ℕ) (old new : Fronts) → IsTold old new → HasFirst count old
        → HasFirst count new }
    ensures shown { (count : ℕ) (old new : Fronts) → IsShown old new → HasFirst count old
        → HasFirst count new }
{}

/// The parts of the servers, and those of the controllers, are had one after the other, by their numbers.
pub fn the_parts_are_had_in_order()
    ensures servers { (n : Names) (servers : List ServerPart) (a : ServerPart)
        → AreServerParts n servers → a.number ≡ length servers → IsServerPart n a
        → AreServerParts n (servers ++ a ∷ []) }
    ensures controllers { (n : Names) (controllers : List ControllerPart) (a : ControllerPart)
        → AreControllerParts n controllers → a.number ≡ length controllers → IsControllerPart n a
        → AreControllerParts n (controllers ++ a ∷ []) }
{}

/// What the broker's fronts show of a server is among what that server gave.
pub fn what_the_broker_was_told_was_given()
    ensures { (fed : List (Known PieceGiven)) (servers : List ServerPart)
        → ((k : ℕ) (f : Known PieceGiven) → slice_get fed k ≡ Some f
        → (a : ServerPart) × (slice_get servers k ≡ Some a) × IsFront (whats f.seen) a.given)
        → GivesMore (given_by fed) (gave_by servers) }
{}

/// A request or a reply that is among the envelopes that a node made is one of those that it sent.
pub fn what_was_accepted_was_sent()
    ensures requests { (qs : List Request) (q : Request)
        → Has (map envelope.Asks qs) (envelope.Asks q) → Has qs q }
    ensures replies { (rs : List Reply) (r : Reply)
        → Has (map envelope.Replies rs) (envelope.Replies r) → Has rs r }
{}
