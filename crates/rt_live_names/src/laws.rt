//! What is true of what every node has seen. Each law stands on a function that does nothing: its
//! clause is the law.
ghost use Rattle.std.specs.Prelude.{ℕ, List, [], ◌∷◌, ◌++◌};
ghost use Rattle.rt_deep.specs.Files.{AreOnce};
ghost use Rattle.rt_deep.specs.Meaning as deep;
ghost use Rattle.rt_deep.specs.declared.deep_put.DeepPut.{DeepPut};
ghost use Rattle.rt_front.specs.Histories.{Known};
ghost use Rattle.rt_ground.specs.Histories.{whats};
ghost use Rattle.rt_ground.specs.Lawfulness.{IsLawfulStore};
ghost use Rattle.rt_ground.specs.declared.appended.Appended.{Appended};
ghost use Rattle.rt_link.specs.Ends.{Sending};
ghost use Rattle.rt_link.specs.declared.envelope.Envelope.{Envelope};
ghost use Rattle.rt_live_names.specs.Names.{Names};
ghost use Rattle.rt_live_names.specs.Sending.{ArePosts, PostsNow, Sends};
ghost use Rattle.rt_live_names.specs.Showed.{
  DeepShowed,
  DeepShown,
  DeepShowsMore,
  Showed,
  Shown,
  ShowsMore,
  StreamShowed,
  StreamShown,
  StreamShowsMore,
};
ghost use Rattle.rt_live_names.specs.Views.{view_of};
ghost use Rattle.rt_lists.specs.Members.{Has, IsFront};
ghost use Rattle.rt_model.specs.Starting.{Starting};
ghost use Rattle.rt_model.specs.declared.node.Seen.{Seen};
ghost use Rattle.rt_model.specs.declared.sent.Sent.{Sent};
ghost use Rattle.rt_model.specs.declared.setup.Setup.{Setup};
ghost use Rattle.rt_past.specs.View.{IsView, Within};
ghost use Rattle.rt_store.specs.Contents.{starting_of};
ghost use Rattle.rt_store.specs.Meaning.{Meaning};
ghost use Rattle.rt_stream.specs.Feed.{FeedMeaning};

/// What a node has of its cluster is a view, where its fronts saw a lawful store and each file once.
pub fn what_a_node_has_is_a_view()
    ensures { (setup : Setup) (store : Known Seen) (deep : Known DeepPut)
        (stream : Known Appended) (sent : List Sent)
        → IsLawfulStore (starting_of setup) store.seen → AreOnce (whats deep.seen)
        → IsView setup (view_of setup store deep stream sent) }
{}

/// A view lies within each later one: what a node has seen, sent or taken, it has for good.
pub fn a_view_only_grows()
    ensures { (setup : Setup) (store1 store2 : Known Seen) (deep1 deep2 : Known DeepPut)
        (stream1 stream2 : Known Appended) (sent1 sent2 : List Sent)
        → IsFront store1.seen store2.seen → IsFront deep1.seen deep2.seen
        → IsFront stream1.seen stream2.seen → ((m : Sent) → Has sent1 m → Has sent2 m)
        → Within (view_of setup store1 deep1 stream1 sent1)
        (view_of setup store2 deep2 stream2 sent2) }
{}

/// What a store, a deep store or a stream meant to its caller at an earlier moment is told by what it shows at any later one.
pub fn what_was_shown_stays_shown()
    ensures store { (s : Starting) (old new : Shown) (told wrote : ℕ) (m : Meaning)
        → ShowsMore old new → Showed s old told wrote m → Showed s new told wrote m }
    ensures deep { (old new : DeepShown) (told put : ℕ) (m : deep.Meaning)
        → DeepShowsMore old new → DeepShowed old told put m → DeepShowed new told put m }
    ensures stream { (partitions : ℕ) (old new : StreamShown) (told : ℕ) (m : FeedMeaning)
        → StreamShowsMore old new → StreamShowed partitions old told m
        → StreamShowed partitions new told m }
{}

/// The posts of a node accept what it sent, as it sends a message more, and as it only counts it among what it sent.
pub fn a_nodes_posts_accept_what_it_sent()
    ensures sends { (n : Names) (from : ℕ) (line : ℕ → ℕ) (sent : List Envelope)
        (old new : PostsNow) (to : ℕ) (e : Envelope) → ArePosts n from line sent old.posts
        → Sends old new to e → ArePosts n from line (sent ++ e ∷ []) new.posts }
    ensures more { (n : Names) (from : ℕ) (line : ℕ → ℕ) (sent more : List Envelope)
        (posts : List Sending) → ((e : Envelope) → Has sent e → Has more e)
        → ArePosts n from line sent posts → ArePosts n from line more posts }
{}
