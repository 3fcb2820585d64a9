//! What callers rely on, over the definitions alone.
ghost use Rattle.std.specs.Prelude.{◌≡◌, ℕ, List, true, Some, Ok, slice_get};
ghost use Rattle.rt_base.specs.declared.numbers.Instance.{Instance};
ghost use Rattle.rt_base.specs.declared.numbers.Partition.{Partition};
ghost use Rattle.rt_base.specs.declared.numbers.Sequence.{Sequence};
ghost use Rattle.rt_model.specs.Metadata.{metadata_of};
ghost use Rattle.rt_model.specs.declared.commit.Commit.{Commit};
ghost use Rattle.rt_model.specs.declared.ideal_state.IdealState.{IdealState};
ghost use Rattle.rt_model.specs.declared.seg_meta.SegMeta.{SegMeta};
ghost use Rattle.rt_model.specs.declared.status.Status.TheVariants.{Done};
ghost use Rattle.rt_stream.specs.Log.{messages_of};
ghost use Rattle.rt_peer.specs.Files.{header_by};
ghost use Rattle.rt_peer.specs.RightPeer.{IsRightPeer};
ghost use Rattle.rt_entry.specs.declared.entry.CommittedSegment.{CommittedSegment};
ghost use Rattle.rt_entry.specs.declared.entry.Entry.TheVariants.{Committed};
ghost use Rattle.rt_server.specs.Table.{entry_of};
ghost use Rattle.rt_nodes.specs.declared.server_node.ServerNode.{ServerNode};
ghost use Rattle.rt_rebalance.specs.Available.{AreStatesOnce};
ghost use Rattle.rt_rebalance.specs.Plan.{IsRebalancePlan};
ghost use Rattle.rt_rebalance.specs.Rehearsed.{Call, IsAvailable, after, start_of};
ghost use Rattle.rt_state.specs.IsSafeWorld.{IsSafeWorld};
ghost use Rattle.rt_state.specs.declared.state.State.{State};
ghost use Rattle.rt_dryrun.specs.Peers.{meta_in, peer_meaning, server_copy};
ghost use Rattle.rt_dryrun.specs.Rehearsing.{entries_now, goal_of, is_fit, plan_in};

/// What is planned from the ideal state of a world that is safe is a rebalance plan, in each of whose states an instance
/// has a segment once; and however it is rehearsed, each segment that moves has at every moment at least as many
/// instances that are ONLINE and have loaded it as are to be kept.
pub fn what_is_rehearsed_keeps_enough()
    ensures plan { (w : State) (servers keep : ℕ) (states : List IdealState) → IsSafeWorld w → is_fit w servers ≡ true
        → plan_in w servers keep ≡ Ok states → IsRebalancePlan keep (entries_now w) (goal_of w servers) states }
    ensures once { (w : State) (servers keep : ℕ) (states : List IdealState) → IsSafeWorld w → is_fit w servers ≡ true
        → plan_in w servers keep ≡ Ok states → AreStatesOnce states }
    ensures available { (w : State) (servers keep : ℕ) (states : List IdealState) (calls : List Call) → IsSafeWorld w → is_fit w servers ≡ true
        → plan_in w servers keep ≡ Ok states → IsAvailable keep (entries_now w) (goal_of w servers) (after calls (start_of states)) }
{}

/// In a safe world a server that downloaded a committed segment, or still wants its file, is a right peer of it: what it is told to
/// hold is a file of the stream's rows of that range, in the setup's format and with its indexes, with the header that the
/// store's metadata names; so what is fetched of it is the one such file.
pub fn a_server_with_a_loaded_file_is_a_right_peer()
    ensures { (w : State) (i : Instance) (n : ServerNode) (p : Partition) (q : Sequence) (c : CommittedSegment)
        (meta : SegMeta) (commit : Commit) → IsSafeWorld w → slice_get w.servers i.0 ≡ Some n
        → entry_of n.server.table p q ≡ Some (Committed c)
        → meta_in (metadata_of w.store.writes p) q ≡ Some meta → meta.status ≡ Done commit
        → IsRightPeer w.setup (messages_of w.log p) (header_by p q meta commit)
        (peer_meaning (server_copy w i)) }
{}
