//! What is true of all queues. Each law stands on a function that does nothing: its clause is the law.
ghost use Rattle.std.specs.Prelude.{◌≡◌, ◌+◌, ◌≤◌, ℕ, List, Some, length, slice_get};
ghost use Rattle.atomic_table.specs.Seated.{TableId};
ghost use Rattle.rt_link.specs.Ends.{Sending, Taking};
ghost use Rattle.rt_live_links.specs.Counted.{HasCounts, IsCounted, queues};
ghost use Rattle.rt_live_links.specs.Gathered.{AreEnds, AreGathered, IsNamedEnd};
ghost use Rattle.rt_live_links.specs.Linked.{AreLinked, IsNewPost, lines_of};
ghost use Rattle.rt_live_links.specs.declared.all_links.Links.{Links};
ghost use Rattle.rt_live_links.specs.declared.node_links.NodeLinks.{NodeLinks};
ghost use Rattle.rt_live_output.specs.declared.journal.Queue.{Queue};

/// The link of each inbox is found by its node's number: that of a server at this place, that of a controller behind
/// those of all servers. Each post of a node is of the link that is found for its receiver.
#[tactic(auto, using(crate::proofs::Lines::server_line, crate::proofs::Lines::controller_line))]
pub fn the_links_of_all_inboxes_are_found()
    ensures server { (links : Links) (number : ℕ) (node : NodeLinks)
        → slice_get links.servers.items number ≡ Some node
        → slice_get (lines_of links) number ≡ Some node.inbox.line }
    ensures controller { (links : Links) (number : ℕ) (node : NodeLinks)
        → slice_get links.controllers.items number ≡ Some node
        → slice_get (lines_of links) (length links.servers.items + number)
        ≡ Some node.inbox.line }
    ensures servers_post { (links : Links) (capacity number place : ℕ) (node : NodeLinks) (post : Sending)
        → AreLinked capacity links.controllers.items links.servers.items
        → slice_get links.servers.items number ≡ Some node
        → slice_get node.posts.items place ≡ Some post
        → IsNewPost (lines_of links) capacity (length links.servers.items + place) number post }
    ensures controllers_post { (links : Links) (capacity number place : ℕ) (node : NodeLinks) (post : Sending)
        → AreLinked capacity links.servers.items links.controllers.items
        → slice_get links.controllers.items number ≡ Some node
        → slice_get node.posts.items place ≡ Some post
        → IsNewPost (lines_of links) capacity place number post }
{}

/// Nodes can be gathered at once, when nothing was posted yet.
pub fn new_links_can_be_gathered()
    ensures { (capacity : ℕ) (others nodes : List NodeLinks) → AreLinked capacity others nodes → AreEnds others nodes }
{}

/// Ended nodes whose inboxes and posts are of the links by these names can be gathered.
#[tactic(auto, using(crate::proofs::Named::named_ends))]
pub fn named_ends_can_be_gathered()
    ensures { (line : ℕ → TableId) (others nodes : List NodeLinks)
        → ((place : ℕ) (other : NodeLinks) → slice_get others place ≡ Some other
        → other.inbox.line ≡ line place)
        → ((number : ℕ) (node : NodeLinks) → slice_get nodes number ≡ Some node
        → IsNamedEnd line (length others) number node)
        → AreEnds others nodes }
{}

/// Each sender has a queue to each receiver.
#[tactic(auto, using(crate::proofs::Counts::all_counted))]
pub fn each_sender_has_a_queue_to_each_receiver()
    ensures { (senders receivers : List NodeLinks) → AreEnds receivers senders
        → HasCounts (length senders) (length receivers) (queues senders receivers) }
{}

/// The counts of a queue are of its sender's post and of what its receiver took of the sender, which is no more than
/// the post accepted.
#[tactic(auto, using(crate::proofs::Counts::is_counted, crate::proofs::Counts::no_more))]
pub fn a_queue_counts_what_its_ends_did()
    ensures counts { (senders receivers : List NodeLinks) (from to : ℕ) (row : List Queue)
        (counts : Queue)
        → slice_get (queues senders receivers) from ≡ Some row
        → slice_get row to ≡ Some counts → IsCounted senders receivers from to counts }
    ensures no_more { (senders receivers : List NodeLinks) (inboxes : List Taking) (from to : ℕ)
        (row : List Queue) (counts : Queue)
        → AreGathered senders receivers inboxes
        → slice_get (queues senders receivers) from ≡ Some row
        → slice_get row to ≡ Some counts → counts.taken ≤ counts.accepted }
{}
