//! That an ended cluster is right. Each law stands on a function that does nothing: its clause is the law.
ghost use Rattle.rt_live_end.specs.Ended.{Ended, IsEnded};
ghost use Rattle.rt_live_end.specs.Right.{
  AreAlwaysTiled,
  AreAnswersRight,
  AreCommitsRight,
  AreFilesRight,
  ArePiecesRight,
  AreReplicasHeld,
  AreWholeOverInput,
  IsInput,
  IsRight,
  past_of,
};
ghost use Rattle.rt_live_names.specs.Names.{Names};
ghost use Rattle.rt_past.specs.View.{IsSound};

/// An ended cluster is right, over the one history of each of its stores: its past is sound, every file that was put is
/// right, the committed ranges tile the stream's offsets at every moment, what its servers have of committed segments
/// and what they ever gave are the stream's rows, and so is what each answer aggregates. Its stream is the input.
pub fn what_has_ended_is_right()
    ensures sound { (n : Names) (e : Ended) → IsEnded n e → IsSound n.setup (past_of n e) }
    ensures files { (n : Names) (e : Ended) → IsEnded n e → AreFilesRight n e }
    ensures tiled { (n : Names) (e : Ended) → IsEnded n e → AreAlwaysTiled n e }
    ensures commits { (n : Names) (e : Ended) → IsEnded n e → AreCommitsRight n e }
    ensures replicas { (n : Names) (e : Ended) → IsEnded n e → AreReplicasHeld n e }
    ensures pieces { (n : Names) (e : Ended) → IsEnded n e → ArePiecesRight n e }
    ensures answers { (n : Names) (e : Ended) → IsEnded n e → AreAnswersRight n e }
    ensures input { (n : Names) (e : Ended) → IsEnded n e → IsInput n (past_of n e).log }
    ensures whole { (n : Names) (e : Ended) → IsEnded n e → AreWholeOverInput n e }
    ensures right { (n : Names) (e : Ended) → IsEnded n e → IsRight n e }
{}
