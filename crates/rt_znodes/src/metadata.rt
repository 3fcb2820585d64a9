ghost use Rattle.std.specs.Prelude.{◌≡◌};
ghost use Rattle.rt_znodes.specs.Znodes.{meta_in, no_meta, seen_meta_of, end_by, end_in};

use rt_base::{Moment, Offset};
use rt_lists::Text;
use rt_model::{Node, Seen, SeenMeta, SegMeta, Status};
use std::alloc::Global;

/// No metadata: what a node is read as that is of another kind. It takes no memory.
pub fn no_meta(alloc: Global) -> SegMeta
    ensures { result ≡ no_meta }
{
    SegMeta {
        name: Text::new(alloc),
        start: Offset(0),
        status: Status::InProgress,
        written: Moment(0),
    }
}

/// The metadata that a node is.
pub fn meta_of<'a>(node: &'a Node, none: &'a SegMeta) -> &'a SegMeta
    requires { none.now ≡ no_meta }
    ensures { result.now ≡ meta_in node.now }
{
    match node {
        Node::Meta(meta) => meta,
        Node::Ideal(_) => none,
        Node::Boot => none,
        Node::Gone => none,
    }
}

/// The metadata that was read, with its version.
pub fn seen_meta_of(alloc: Global, seen: Seen) -> SeenMeta
    ensures { result ≡ seen_meta_of seen }
{
    let Seen {
        key: _,
        version,
        node,
    } = seen;
    match node {
        Node::Meta(meta) => SeenMeta { version, meta },
        Node::Ideal(_) => SeenMeta {
            version,
            meta: no_meta(alloc),
        },
        Node::Boot => SeenMeta {
            version,
            meta: no_meta(alloc),
        },
        Node::Gone => SeenMeta {
            version,
            meta: no_meta(alloc),
        },
    }
}

/// The end of a Done node.
pub fn end_of(node: &Node) -> Offset
    ensures { result ≡ end_in node.now }
{
    match node {
        Node::Meta(meta) => end_by(&meta.status),
        Node::Ideal(_) => Offset(0),
        Node::Boot => Offset(0),
        Node::Gone => Offset(0),
    }
}

fn end_by(status: &Status) -> Offset
    ensures { result ≡ end_by status.now }
{
    match status {
        Status::InProgress => Offset(0),
        Status::Done(commit) => commit.end,
        Status::Abandoned => Offset(0),
    }
}

/// The start of the segment whose metadata a node is.
pub fn start_of(node: &Node) -> Offset
    ensures { result ≡ (meta_in node.now).start }
{
    match node {
        Node::Meta(meta) => meta.start,
        Node::Ideal(_) => Offset(0),
        Node::Boot => Offset(0),
        Node::Gone => Offset(0),
    }
}
