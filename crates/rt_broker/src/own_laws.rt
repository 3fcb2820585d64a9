//! What lasts of a query over what its broker has seen, whatever the servers gave.
ghost use Rattle.std.specs.Prelude.{◌≡◌, ◌<◌, ℕ, Result, length};
ghost use Rattle.rt_base.specs.declared.numbers.Instance.{Instance};
ghost use Rattle.rt_base.specs.declared.numbers.Partition.{Partition};
ghost use Rattle.rt_base.specs.declared.numbers.Sequence.{Sequence};
ghost use Rattle.rt_lists.specs.Members.{Has, IsFront};
ghost use Rattle.rt_model.specs.declared.piece.Piece.{Piece};
ghost use Rattle.rt_model.specs.declared.query.Query.{Query};
ghost use Rattle.rt_model.specs.declared.setup.Setup.{Setup};
ghost use Rattle.rt_model.specs.Laws.{Begins};
ghost use Rattle.rt_model.specs.Lawful.{IsLawfulHistory};
ghost use Rattle.rt_store.specs.Contents.{starting_of};
ghost use Rattle.rt_store.specs.Meaning.{Meaning};
ghost use Rattle.rt_past.specs.Past.{Past};
ghost use Rattle.rt_broker.specs.declared.piece_got.PieceGot.{PieceGot};
ghost use Rattle.rt_broker.specs.declared.refused.BrokerRefused.{BrokerRefused};
ghost use Rattle.rt_broker.specs.Answering.{AreServed, IsRefused};
ghost use Rattle.rt_broker.specs.Asking.{Asking, asking};
ghost use Rattle.rt_broker.specs.IsAsked.{IsAsked, messages_in};
ghost use Rattle.rt_broker.specs.IsAskedBy.{
  AreRightGiven,
  Given,
  GivesMore,
  IsAskedBy,
  IsRefusedBy,
};
ghost use Rattle.rt_broker.specs.Noting.{Notes};
ghost use Rattle.rt_broker.specs.Routing.{Routes};

/// What lasts of an asking is there as it begins, and lasts as its broker sees more of the store's
/// history and the servers give more.
pub fn what_a_broker_asked_lasts()
    ensures begins { (setup : Setup) (past : Past) (given : Given) (number asked : ℕ)
        (query : Query) → IsAskedBy setup past given number asked (asking query setup) }
    ensures grows { (setup : Setup) (a b : Past) (given more : Given) (number asked : ℕ)
        (x : Asking) → IsFront a.history b.history → GivesMore given more
        → IsAskedBy setup a given number asked x → IsAskedBy setup b more number asked x }
{}

/// It lasts as a partition is routed by a list that the broker saw, and as a piece is noted with
/// what a server gave for it in this very asking.
pub fn a_broker_notes_what_was_given()
    ensures routes { (setup : Setup) (past : Past) (given : Given) (number asked : ℕ)
        (old new : Meaning) (a b : Asking) (p : Partition) (result : Result ℕ BrokerRefused)
        → Routes old new a p b result
        → Begins (starting_of setup) old.seen → IsFront new.seen past.history
        → IsAskedBy setup past given number asked a → IsAskedBy setup past given number asked b }
    ensures notes { (setup : Setup) (past : Past) (given : Given) (number asked : ℕ)
        (a b : Asking) (piece : Piece) (from : Instance) (what : PieceGot)
        (result : Result (Unit {0}) BrokerRefused)
        → Notes a piece from what b result
        → Has (given from.0)
        (record { query = number; asking = asked; piece = piece; got = what })
        → IsAskedBy setup past given number asked a → IsAskedBy setup past given number asked b }
{}

/// Where all that the servers gave in an asking is right over a past, what was noted is right too.
pub fn what_was_given_right_is_asked_right()
    ensures { (setup : Setup) (past : Past) (given : Given) (number asked : ℕ) (a : Asking)
        → AreRightGiven setup past given number asked a.query
        → IsAskedBy setup past given number asked a → IsAsked setup past a }
{}

/// Each server that is assigned to a piece which is missing, in a partition that was routed, was
/// asked for it in this very asking, and gave no rows.
pub fn what_is_missing_was_refused()
    ensures { (setup : Setup) (past : Past) (given : Given) (number asked : ℕ) (a : Asking)
        (p : Partition) (s : Sequence) → IsAskedBy setup past given number asked a
        → IsRefused a p s → IsRefusedBy given number asked a p s }
{}

/// Over a lawful history and a stream of the table's partitions, what was served are ranges of the
/// stream in order, each held by its groups, so that the answer is right. The past need not be right
/// in anything else.
pub fn what_was_asked_is_served_over_a_lawful_history()
    ensures { (setup : Setup) (past : Past) (a : Asking) → IsAsked setup past a
        → length past.log ≡ setup.partitions
        → IsLawfulHistory (starting_of setup) past.history
        → messages_in past.log < 9223372036854775808 → AreServed setup.schema past.log a }
{}
