ghost use Rattle.std.specs.Prelude.{◌≡◌, [], ◌∷◌, ◌++◌, OnOk};

use rt_link::{Inbox, Post};
use std::alloc::AllocError;

/// What links one node to the nodes of the other kind.
#[derive(Drop)]
pub struct NodeLinks {
    /// The node's own inbox, for all of them.
    pub inbox: Inbox,
    /// The node's posts, one to each of them in the order of their numbers.
    pub posts: Vec<Post>,
}

impl NodeLinks {
    /// Gives the node one post more.
    pub(crate) fn add(&mut self, post: Post) -> Result<(), AllocError>
        ensures inbox { self.new.inbox ≡ self.old.inbox }
        ensures posts { OnOk result (self.new.posts.items ≡ self.old.posts.items ++ post ∷ []) }
    {
        self.posts.push(post)?;
        Ok(())
    }
}
