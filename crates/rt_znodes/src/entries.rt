ghost use Rattle.std.specs.Prelude.{◌≡◌, []};
ghost use Rattle.rt_model.specs.Entries.{entries_by};

use rt_model::{IdealEntry, IdealState, Node};

/// The entries of an ideal state, or none of another node.
pub fn entries_of(node: &Node) -> &[IdealEntry]
    ensures { result.now ≡ entries_by node.now }
{
    match node {
        Node::Ideal(state) => state.entries.as_slice(),
        Node::Meta(_) => &[],
        Node::Boot => &[],
        Node::Gone => &[],
    }
}

/// The ideal state that a node is, or an empty one.
pub fn state_of<'a>(node: &'a Node, empty: &'a IdealState) -> &'a IdealState
    requires { empty.now.entries ≡ [] }
    ensures { result.now.entries ≡ entries_by node.now }
{
    match node {
        Node::Ideal(state) => state,
        Node::Meta(_) => empty,
        Node::Boot => empty,
        Node::Gone => empty,
    }
}
