ghost use Rattle.std.specs.Prelude.{◌≡◌, ◌≤◌, All, length, IfOk, OnOk};
ghost use Rattle.rt_live_links.specs.Rows.{inboxes_of, onto, onto_all, posts_of, with_last};

use crate::node_links::NodeLinks;
use rt_link::Post;
use rt_lists::Items;
use std::alloc::AllocError;

/// The nodes with their posts: these rows are dealt out to them, one after the other, of each row the first post to the
/// first node, and so on.
pub(crate) fn deal_all(
    mut nodes: Vec<NodeLinks>,
    rows: Vec<Items<Post>>,
) -> Result<Vec<NodeLinks>, AllocError>
    requires { All (λ row. length row ≡ length nodes.items) rows.items }
    ensures count { IfOk result (λ dealt. length dealt.items ≡ length nodes.items) }
    ensures inboxes { IfOk result (λ dealt. inboxes_of dealt.items ≡ inboxes_of nodes.items) }
    ensures posts { IfOk result
        (λ dealt. posts_of dealt.items ≡ onto_all with_last (posts_of nodes.items) rows.items) }
{
    for row in rows {
        deal(&mut nodes, row.into_vec())?;
    }
    Ok(nodes)
}

// Deals one row of posts out.
fn deal(nodes: &mut [NodeLinks], mut row: Vec<Post>) -> Result<(), AllocError>
    requires { length row.items ≤ length nodes.old }
    ensures inboxes { inboxes_of nodes.new ≡ inboxes_of nodes.old }
    ensures posts { OnOk result (posts_of nodes.new ≡ onto with_last (posts_of nodes.old) row.items) }
{
    while let Some(post) = row.pop() {
        nodes[row.len()].add(post)?;
    }
    Ok(())
}
